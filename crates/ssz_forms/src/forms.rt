ghost use Rattle.std.specs.Prelude.{◌≡◌, ◌<◌, length, IfOk, IfSome};
ghost use Rattle.std.specs.List.{AllByRecursion};
ghost use Rattle.ssz_schema.specs.Types.{uint, boolean, container, vector, list, bitvector, bitlist, union};
ghost use Rattle.ssz_schema.specs.Unfolding.{Types, type_of, fields_over, options_over, IsBelow};
ghost use Rattle.ssz_forms.specs.Answers.{AreRight, Compares, same_option};
ghost use Rattle.ssz_forms.specs.SameType.{same_type, same_fields, same_options};

use ssz_schema::{Name, Schema, Ty, TypeId, Width};
use std::alloc::{AllocError, Global};
use std::collections::BTreeMap;

/// What was found out so far of the types of one schema: whether these two are the same.
#[derive(Drop)]
pub(crate) struct Forms {
    answers: BTreeMap<(TypeId, TypeId), bool>,
}

/// Whether two types are equal as trees (simple-serialize.md, Typing): the same form of the same
/// parts, with the same field names and limits, whatever the names of their definitions. No two
/// types are compared twice. Fails for want of memory alone.
pub fn same_type(
    alloc: Global,
    schema: &Schema,
    first: TypeId,
    second: TypeId,
) -> Result<bool, AllocError>
    requires first { first < length schema.now.trees }
    requires second { second < length schema.now.trees }
    ensures { IfOk result (λ same.
        same ≡ same_type (type_of schema.now first) (type_of schema.now second)) }
{
    let mut forms = Forms::new(alloc);
    forms.same(schema, first, second)
}

impl Forms {
    /// Nothing is found out yet.
    pub(crate) fn new(alloc: Global) -> Self
        ensures { (types : Types) → AreRight types result }
    {
        Forms {
            answers: BTreeMap::new(alloc),
        }
    }

    /// Whether the two types are the same tree. It fails for want of memory alone.
    #[cycle(same)]
    pub(crate) fn same(
        &mut self,
        schema: &Schema,
        first: TypeId,
        second: TypeId,
    ) -> Result<bool, AllocError>
        requires first { first < length schema.now.trees }
        requires second { second < length schema.now.trees }
        requires right { AreRight schema.now self.old }
        ensures { let same = same_type (type_of schema.now first) (type_of schema.now second) in
            Compares schema.now same result self.new }
    {
        if first == second {
            return Ok(true);
        }
        match self.find(first, second) {
            Some(same) => Ok(same),
            None => {
                let same = self.compare(schema, first, second)?;
                self.keep(first, second, same)?;
                Ok(same)
            }
        }
    }

    // By their forms.
    #[cycle(same)]
    fn compare(
        &mut self,
        schema: &Schema,
        first: TypeId,
        second: TypeId,
    ) -> Result<bool, AllocError>
        requires first { first < length schema.now.trees }
        requires second { second < length schema.now.trees }
        requires right { AreRight schema.now self.old }
        ensures { let same = same_type (type_of schema.now first) (type_of schema.now second) in
            Compares schema.now same result self.new }
    {
        match schema.ty(first) {
            Ty::Uint(width) => Ok(is_uint(schema, second, *width)),
            Ty::Boolean => Ok(is_boolean(schema, second)),
            Ty::Bitvector(n) => Ok(is_bitvector(schema, second, *n)),
            Ty::Bitlist(limit) => Ok(is_bitlist(schema, second, *limit)),
            Ty::Vector(elem, n) => self.is_vector(schema, second, *elem, *n),
            Ty::List(elem, limit) => self.is_list(schema, second, *elem, *limit),
            Ty::Container(fields) => self.is_container(schema, second, first, fields.as_slice()),
            Ty::Union(options) => self.is_union(schema, second, first, options.as_slice()),
        }
    }

    // Whether the type is a vector of so many elements of this one.
    #[cycle(same)]
    fn is_vector(
        &mut self,
        schema: &Schema,
        id: TypeId,
        elem: TypeId,
        n: u64,
    ) -> Result<bool, AllocError>
        requires known { id < length schema.now.trees }
        requires elem { elem < length schema.now.trees }
        requires right { AreRight schema.now self.old }
        ensures { let t = vector (type_of schema.now elem) n in
            Compares schema.now (same_type t (type_of schema.now id)) result self.new }
    {
        match schema.ty(id) {
            Ty::Vector(other, m) => {
                if n != *m {
                    return Ok(false);
                }
                self.same(schema, elem, *other)
            }
            _ => Ok(false),
        }
    }

    // Whether the type is a list of this limit of elements of this one.
    #[cycle(same)]
    fn is_list(
        &mut self,
        schema: &Schema,
        id: TypeId,
        elem: TypeId,
        limit: u64,
    ) -> Result<bool, AllocError>
        requires known { id < length schema.now.trees }
        requires elem { elem < length schema.now.trees }
        requires right { AreRight schema.now self.old }
        ensures { let t = list (type_of schema.now elem) limit in
            Compares schema.now (same_type t (type_of schema.now id)) result self.new }
    {
        match schema.ty(id) {
            Ty::List(other, most) => {
                if limit != *most {
                    return Ok(false);
                }
                self.same(schema, elem, *other)
            }
            _ => Ok(false),
        }
    }

    // Whether the type is a container of these fields, whose types stand before bound.
    #[cycle(same)]
    fn is_container(
        &mut self,
        schema: &Schema,
        id: TypeId,
        bound: TypeId,
        fields: &[(Name, TypeId)],
    ) -> Result<bool, AllocError>
        requires known { id < length schema.now.trees }
        requires bound { bound < length schema.now.trees }
        requires before { AllByRecursion (λ part. part.1 < bound) fields.now }
        requires right { AreRight schema.now self.old }
        ensures { let t = container (fields_over schema.now.trees fields.now) in
            Compares schema.now (same_type t (type_of schema.now id)) result self.new }
    {
        match schema.ty(id) {
            Ty::Container(others) => {
                self.fields_same(schema, bound, fields, id, others.as_slice())
            }
            _ => Ok(false),
        }
    }

    // Field by field; the types of the others stand before limit.
    #[cycle(same)]
    fn fields_same(
        &mut self,
        schema: &Schema,
        bound: TypeId,
        fields: &[(Name, TypeId)],
        limit: TypeId,
        others: &[(Name, TypeId)],
    ) -> Result<bool, AllocError>
        requires bound { bound < length schema.now.trees }
        requires before { AllByRecursion (λ part. part.1 < bound) fields.now }
        requires limit { limit < length schema.now.trees }
        requires others { AllByRecursion (λ part. part.1 < limit) others.now }
        requires right { AreRight schema.now self.old }
        ensures { let same = same_fields (fields_over schema.now.trees fields.now)
            (fields_over schema.now.trees others.now) in
            Compares schema.now same result self.new }
    {
        if fields.len() != others.len() {
            return Ok(false);
        }
        for (i, field) in fields.iter().enumerate() {
            let other = &others[i];
            if field.0.as_bytes() != other.0.as_bytes() {
                return Ok(false);
            }
            let same = self.same(schema, field.1, other.1)?;
            if !same {
                return Ok(false);
            }
        }
        Ok(true)
    }

    // Whether the type is a union of these options, whose types stand before bound.
    #[cycle(same)]
    fn is_union(
        &mut self,
        schema: &Schema,
        id: TypeId,
        bound: TypeId,
        options: &[Option<TypeId>],
    ) -> Result<bool, AllocError>
        requires known { id < length schema.now.trees }
        requires bound { bound < length schema.now.trees }
        requires before { AllByRecursion (IsBelow bound) options.now }
        requires right { AreRight schema.now self.old }
        ensures { let t = union (options_over schema.now.trees options.now) in
            Compares schema.now (same_type t (type_of schema.now id)) result self.new }
    {
        match schema.ty(id) {
            Ty::Union(others) => {
                self.options_same(schema, bound, options, id, others.as_slice())
            }
            _ => Ok(false),
        }
    }

    // Option by option; the types of the others stand before limit.
    #[cycle(same)]
    fn options_same(
        &mut self,
        schema: &Schema,
        bound: TypeId,
        options: &[Option<TypeId>],
        limit: TypeId,
        others: &[Option<TypeId>],
    ) -> Result<bool, AllocError>
        requires bound { bound < length schema.now.trees }
        requires before { AllByRecursion (IsBelow bound) options.now }
        requires limit { limit < length schema.now.trees }
        requires others { AllByRecursion (IsBelow limit) others.now }
        requires right { AreRight schema.now self.old }
        ensures { let same = same_options (options_over schema.now.trees options.now)
            (options_over schema.now.trees others.now) in
            Compares schema.now same result self.new }
    {
        if options.len() != others.len() {
            return Ok(false);
        }
        for (i, option) in options.iter().enumerate() {
            let other = others[i];
            let same = self.option_same(schema, bound, *option, limit, other)?;
            if !same {
                return Ok(false);
            }
        }
        Ok(true)
    }

    // One option, None or a type.
    #[cycle(same)]
    fn option_same(
        &mut self,
        schema: &Schema,
        bound: TypeId,
        option: Option<TypeId>,
        limit: TypeId,
        other: Option<TypeId>,
    ) -> Result<bool, AllocError>
        requires bound { bound < length schema.now.trees }
        requires before { IsBelow bound option }
        requires limit { limit < length schema.now.trees }
        requires others { IsBelow limit other }
        requires right { AreRight schema.now self.old }
        ensures { Compares schema.now (same_option schema.now.trees option other) result self.new }
    {
        match option {
            Some(first) => match other {
                Some(second) => self.same(schema, first, second),
                None => Ok(false),
            },
            None => Ok(other.is_none()),
        }
    }

    // What is kept of the two types.
    fn find(&self, first: TypeId, second: TypeId) -> Option<bool>
        ensures { (types : Types) → AreRight types self.now → IfSome result (λ same.
            same ≡ same_type (type_of types first) (type_of types second)) }
    {
        self.answers.get(&(first, second)).copied()
    }

    // Keeps what was found out of the two types.
    fn keep(&mut self, first: TypeId, second: TypeId, same: bool) -> Result<(), AllocError>
        ensures { (types : Types) → AreRight types self.old
            → same ≡ same_type (type_of types first) (type_of types second)
            → AreRight types self.new }
    {
        self.answers.insert((first, second), same)?;
        Ok(())
    }
}

// Whether the type is that of numbers of this width.
fn is_uint(schema: &Schema, id: TypeId, width: Width) -> bool
    requires { id < length schema.now.trees }
    ensures { result ≡ same_type (uint width) (type_of schema.now id) }
{
    match schema.ty(id) {
        Ty::Uint(other) => width.byte_count() == other.byte_count(),
        _ => false,
    }
}

fn is_boolean(schema: &Schema, id: TypeId) -> bool
    requires { id < length schema.now.trees }
    ensures { result ≡ same_type boolean (type_of schema.now id) }
{
    match schema.ty(id) {
        Ty::Boolean => true,
        _ => false,
    }
}

fn is_bitvector(schema: &Schema, id: TypeId, n: u64) -> bool
    requires { id < length schema.now.trees }
    ensures { result ≡ same_type (bitvector n) (type_of schema.now id) }
{
    match schema.ty(id) {
        Ty::Bitvector(m) => n == *m,
        _ => false,
    }
}

fn is_bitlist(schema: &Schema, id: TypeId, limit: u64) -> bool
    requires { id < length schema.now.trees }
    ensures { result ≡ same_type (bitlist limit) (type_of schema.now id) }
{
    match schema.ty(id) {
        Ty::Bitlist(most) => limit == *most,
        _ => false,
    }
}
