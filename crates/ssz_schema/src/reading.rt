// The types of the parts that steps and paths lead to.
ghost use Rattle.std.specs.Prelude.{◌≡◌, ◌<◌, length, option_map, None, IfSome, IfNone};
ghost use Rattle.std.specs.Option.{ForSome};
ghost use Rattle.ssz_schema.specs.declared.path.PathStep.TheVariants.{Field, Index, Len, Selector, Option as Chosen};
ghost use Rattle.ssz_types.specs.Unfolding.{type_of};
ghost use Rattle.ssz_schema.specs.Paths.{step_type, path_type};
ghost use Rattle.ssz_schema.specs.Steps.{StepLeadsTo, IsLead};

use super::lead::{Lead, unnumbered};
use super::path::PathStep;
use super::schema::Schema;
use ssz_types::{Ty, TypeId, Width, field_number, if_below, option_at};

impl Schema {
    /// The part that the step leads to from a value of the type, or None exactly where the step
    /// does not fit the type. The names of a container's fields are looked through once.
    pub fn lead(&self, id: TypeId, step: &PathStep) -> Option<Lead>
        requires { id < length self.now.trees }
        ensures led { IfSome result (IsLead self.now id step.now) }
        ensures unfit { IfNone result (step_type (type_of self.now id) step.now ≡ None) }
    {
        match step {
            PathStep::Field(name) => self.field_lead(id, name.as_bytes()),
            PathStep::Index(i) => unnumbered(self.element_type(id, *i)),
            PathStep::Len => unnumbered(self.len_type(id)),
            PathStep::Selector => unnumbered(self.selector_type(id)),
            PathStep::Option(selector) => unnumbered(self.option_type(id, *selector)),
        }
    }

    /// The same of the step to the field of this name, which is here only lent.
    pub fn field_lead(&self, id: TypeId, name: &[u8]) -> Option<Lead>
        requires { id < length self.now.trees }
        ensures led { IfSome result (IsLead self.now id (Field name.now)) }
        ensures unfit { IfNone result (step_type (type_of self.now id) (Field name.now) ≡ None) }
    {
        let Ty::Container(fields) = self.ty(id) else {
            return None;
        };
        match field_number(fields.as_slice(), name) {
            Some(number) => Some(Lead {
                part: fields[number].1,
                number: number as u64,
            }),
            None => None,
        }
    }

    /// The type of the part that the step leads to from a value of the type, or None exactly
    /// where the step does not fit the type.
    pub fn step_type(&self, id: TypeId, step: &PathStep) -> Option<TypeId>
        requires { id < length self.now.trees }
        ensures exact { option_map (type_of self.now) result
            ≡ step_type (type_of self.now id) step.now }
        ensures known { ForSome result (λ part. part < length self.now.trees) }
    {
        match self.lead(id, step) {
            Some(lead) => Some(lead.part),
            None => None,
        }
    }

    /// The type of the part at the path in a value of the type, or None exactly
    /// where the path does not fit the type.
    pub fn path_type(&self, id: TypeId, path: &[PathStep]) -> Option<TypeId>
        requires { id < length self.now.trees }
        ensures exact { option_map (type_of self.now) result
            ≡ path_type (type_of self.now id) path.now }
        ensures known { ForSome result (λ part. part < length self.now.trees) }
    {
        let mut part = id;
        for step in path {
            match self.step_type(part, step) {
                Some(next) => part = next,
                None => return None,
            }
        }
        Some(part)
    }

    fn element_type(&self, id: TypeId, i: u64) -> Option<TypeId>
        requires { id < length self.now.trees }
        ensures { StepLeadsTo self.now id (Index i) result }
    {
        match self.ty(id) {
            Ty::Vector(elem, n) => if_below(i, *n, *elem),
            Ty::List(elem, limit) => if_below(i, *limit, *elem),
            Ty::Bitvector(n) => if_below(i, *n, self.boolean()),
            Ty::Bitlist(limit) => if_below(i, *limit, self.boolean()),
            Ty::Uint(_) | Ty::Boolean | Ty::Container(_) | Ty::Union(_) => None,
        }
    }

    fn len_type(&self, id: TypeId) -> Option<TypeId>
        requires { id < length self.now.trees }
        ensures { StepLeadsTo self.now id Len result }
    {
        match self.ty(id) {
            Ty::List(_, _) | Ty::Bitlist(_) => Some(self.uint(Width::W64)),
            _ => None,
        }
    }

    fn selector_type(&self, id: TypeId) -> Option<TypeId>
        requires { id < length self.now.trees }
        ensures { StepLeadsTo self.now id Selector result }
    {
        match self.ty(id) {
            Ty::Union(_) => Some(self.uint(Width::W8)),
            _ => None,
        }
    }

    fn option_type(&self, id: TypeId, selector: u8) -> Option<TypeId>
        requires { id < length self.now.trees }
        ensures { StepLeadsTo self.now id (Chosen selector) result }
    {
        match self.ty(id) {
            Ty::Union(options) => option_at(options.as_slice(), usize::from(selector)),
            _ => None,
        }
    }
}
