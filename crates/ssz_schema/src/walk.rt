// The walk of a definition.
ghost use Rattle.std.specs.Prelude.{◌≡◌, Option, List, true, OnErr, map, option_map, IfOk, [], length, bytes_eq};
ghost use Rattle.ssz_schema.specs.Forms.{form_of, field_form_of, field_forms, option_forms, container_form, union_form};
ghost use Rattle.ssz_schema.specs.Walk.{resolved, resolved_fields, resolved_options, resolved_field, resolved_option, defined};
ghost use Rattle.ssz_types.specs.Unfolding.{known_in, type_of, fields_over, options_over};
ghost use Rattle.ssz_schema.specs.Adding.{Resolves, IsType, AreFieldTypes, AreOptions, IsField, IsOption, Defines, Knows, AnswersWalk, DefinesOrExtends};
ghost use Rattle.ssz_types.specs.Repeats.{first_repeat, is_at};
ghost use Rattle.std.specs.List.{IsDistinct};
ghost use Rattle.ssz_types.specs.Legal.{AreLegalFields, AreLegalOptions, IsNoneFirst, field_names};

use super::schema::Schema;
use ssz_types::{
    FieldOrder, Name, SchemaError, SchemaFault, TypeExpr, TypeId, is_at, is_name, is_wrong_size,
};

impl Schema {
    /// Adds a definition: the type that the expression writes, under this name.
    ///
    /// Answers the first fault of the definition, S3 to S14, or
    /// Memory. Then the schema is as before.
    pub fn add(&mut self, name: &Name, expr: &TypeExpr) -> Result<TypeId, SchemaError>
        ensures added { IfOk result (Defines name.now self.old self.new) }
        ensures known { IfOk result (λ id. Knows name.now (type_of self.new id) self.old self.new) }
        ensures answer { AnswersWalk (defined self.old.format (known_in self.old) name.now
            (form_of expr.now)) self.new result }
        ensures kept { OnErr result (self.new ≡ self.old) }
    {
        if !is_name(name.as_bytes()) {
            return Err(SchemaError::Fault(SchemaFault::BadName));
        }
        if self.find_name(name).is_some() {
            return Err(SchemaError::Fault(SchemaFault::NameTaken));
        }
        let count = self.count();
        let added = self.define(name, expr);
        if added.is_err() {
            self.truncate(count);
        }
        added
    }

    fn define(&mut self, name: &Name, expr: &TypeExpr) -> Result<TypeId, SchemaError>
        ensures { DefinesOrExtends name.now
            (resolved self.old.format (known_in self.old) (form_of expr.now)) self.old self.new
            result }
    {
        let id = self.resolve(expr)?;
        self.insert_name(name.as_bytes(), id)?;
        Ok(id)
    }

    #[cycle(walk)]
    fn resolve(&mut self, expr: &TypeExpr) -> Result<TypeId, SchemaError>
        ensures { Resolves IsType (resolved self.old.format (known_in self.old) (form_of expr.now))
            self.old self.new result }
    {
        match expr {
            TypeExpr::Named(name) => self
                .find_name(name)
                .ok_or(SchemaError::Fault(SchemaFault::UnknownName)),
            TypeExpr::Uint(width) => Ok(self.uint(*width)),
            TypeExpr::Boolean => Ok(self.boolean()),
            TypeExpr::Container(fields) => self.resolve_container(fields),
            TypeExpr::Vector(elem, n) => {
                let elem = self.resolve(elem)?;
                self.add_vector(elem, *n)
            }
            TypeExpr::List(elem, limit) => {
                let elem = self.resolve(elem)?;
                self.add_list(elem, *limit)
            }
            TypeExpr::Bitvector(n) => self.add_bitvector(*n),
            TypeExpr::Bitlist(limit) => self.add_bitlist(*limit),
            TypeExpr::Union(options) => self.resolve_union(options),
        }
    }

    #[cycle(walk)]
    fn resolve_container(&mut self, fields: &Vec<(Name, TypeExpr)>) -> Result<TypeId, SchemaError>
        ensures { Resolves IsType (resolved self.old.format (known_in self.old)
            (container_form (field_forms (map field_form_of fields.now.items)))) self.old self.new
            result }
    {
        if fields.is_empty() {
            return Err(SchemaError::Fault(SchemaFault::EmptyContainer));
        }
        let order = FieldOrder::of(self.allocator(), fields)?;
        let fields = self.resolve_fields(fields, order.repeat)?;
        self.add_container(fields, order.numbers)
    }

    // The first field that has the name of an earlier one, the caller knows.
    #[cycle(walk)]
    fn resolve_fields(
        &mut self,
        fields: &Vec<(Name, TypeExpr)>,
        repeat: Option<usize>,
    ) -> Result<Vec<(Name, TypeId)>, SchemaError>
        requires { repeat ≡ first_repeat [] 0 (map (λ field. field.0) fields.now.items) }
        ensures walk { Resolves AreFieldTypes
            (resolved_fields self.old.format (known_in self.old) []
            (field_forms (map field_form_of fields.now.items))) self.old self.new result }
        ensures len { IfOk result (λ parts. length parts.items ≡ length fields.now.items) }
        ensures legal { IfOk result (λ parts. AreLegalFields self.new.format
            (fields_over self.new.trees parts.items)) }
        ensures distinct { IfOk result (λ parts. IsDistinct bytes_eq
            (field_names (fields_over self.new.trees parts.items))) }
    {
        let alloc = self.allocator();
        let mut resolved = Vec::with_capacity(alloc, fields.len())?;
        for (i, field) in fields.iter().enumerate() {
            let part = self.resolve_field(field, is_at(repeat, i))?;
            resolved.push(part)?;
        }
        Ok(resolved)
    }

    // Whether an earlier field has the name, the caller knows.
    #[cycle(walk)]
    fn resolve_field(
        &mut self,
        field: &(Name, TypeExpr),
        is_repeat: bool,
    ) -> Result<(Name, TypeId), SchemaError>
        ensures { Resolves IsField (resolved_field self.old.format (known_in self.old) is_repeat
            (field_form_of field.now)) self.old self.new result }
    {
        let name = field.0.as_bytes();
        if !is_name(name) {
            return Err(SchemaError::Fault(SchemaFault::BadName));
        }
        if is_repeat {
            return Err(SchemaError::Fault(SchemaFault::FieldTaken));
        }
        let id = self.resolve(&field.1)?;
        Ok((Name::copy_of(self.allocator(), name)?, id))
    }

    #[cycle(walk)]
    fn resolve_union(&mut self, options: &Vec<Option<TypeExpr>>) -> Result<TypeId, SchemaError>
        ensures { Resolves IsType (resolved self.old.format (known_in self.old)
            (union_form (option_forms (map (option_map form_of) options.now.items)))) self.old
            self.new result }
    {
        if is_wrong_size(options.len()) {
            return Err(SchemaError::Fault(SchemaFault::UnionSize));
        }
        let options = self.resolve_options(options)?;
        self.add_union(options)
    }

    #[cycle(walk)]
    fn resolve_options(
        &mut self,
        options: &Vec<Option<TypeExpr>>,
    ) -> Result<Vec<Option<TypeId>>, SchemaError>
        ensures walk { Resolves AreOptions
            (resolved_options self.old.format (known_in self.old) true
            (option_forms (map (option_map form_of) options.now.items))) self.old self.new result }
        ensures len { IfOk result (λ ids. length ids.items ≡ length options.now.items) }
        ensures legal { IfOk result (λ ids. AreLegalOptions self.new.format
            (options_over self.new.trees ids.items)) }
        ensures none { IfOk result (λ ids. IsNoneFirst (options_over self.new.trees ids.items)) }
    {
        let alloc = self.allocator();
        let mut resolved = Vec::with_capacity(alloc, options.len())?;
        for (i, option) in options.iter().enumerate() {
            let part = self.resolve_option(option, i == 0)?;
            resolved.push(part)?;
        }
        Ok(resolved)
    }

    #[cycle(walk)]
    fn resolve_option(
        &mut self,
        option: &Option<TypeExpr>,
        is_first: bool,
    ) -> Result<Option<TypeId>, SchemaError>
        ensures { Resolves IsOption (resolved_option self.old.format (known_in self.old) is_first
            (option_map form_of option.now)) self.old self.new result }
    {
        match option {
            Some(expr) => Ok(Some(self.resolve(expr)?)),
            None if is_first => Ok(None),
            None => Err(SchemaError::Fault(SchemaFault::NonePlace)),
        }
    }
}
