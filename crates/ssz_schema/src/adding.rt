// Adding a type whose parts are there, unless it exceeds a limit.
ghost use Rattle.std.specs.Prelude.{◌≡◌, ◌<◌, ◌≤◌, ◌^◌, Ok, Err, List, length, Option, option_map, bytes_eq};
ghost use Rattle.std.specs.List.{AllByRecursion, IsDistinct};
ghost use Rattle.ssz_types.specs.Types.{vector, list, bitvector, bitlist, container, union};
ghost use Rattle.ssz_types.specs.Sizes.{field_count, option_count, default_option_length};
ghost use Rattle.ssz_types.specs.Legal.{AreLegalFields, AreLegalOptions, IsNoneFirst, field_names, most_options};
ghost use Rattle.ssz_types.specs.Order.{name_order, field_order};
ghost use Rattle.ssz_schema.specs.Walk.{within_limits, of_length, of_limit};
ghost use Rattle.ssz_types.specs.Unfolding.{type_of, tree_over, fields_over, options_over, IsBelow};
ghost use Rattle.ssz_schema.specs.Inside.{IsSoundButLimits};
ghost use Rattle.ssz_schema.specs.Adding.{Resolves, IsType};
ghost use Rattle.ssz_schema.specs.Sums.{AreSums, AreOptionSums, IsOption};

use super::schema::Schema;
use ssz_types::{
    Entry, Facts, Name, SchemaError, SchemaFault, Ty, TypeId, depth_of_count, element_chunks,
    part_length, size_if_fixed,
};

// The deepest nesting of a type.
const MOST_NESTING: u32 = 32;

// The longest encoding of a type's default.
const MOST_DEFAULT: u64 = 1 << 24;

// What the fields of a container tell together, long lengths capped.
#[derive(Clone, Copy)]
pub struct Sums {
    pub all_fixed: bool,
    pub default_len: u64,
    pub levels: u32,
    pub nesting: u32,
}

impl Schema {
    // Adds a type if it keeps the limits, with its fields in order.
    fn add_within_limits(
        &mut self,
        ty: Ty,
        facts: Facts,
        order: Vec<usize>,
    ) -> Result<TypeId, SchemaError>
        requires sound { IsSoundButLimits self.old.format self.old.trees ty facts }
        requires order { order.items ≡ field_order (tree_over self.old.trees ty) }
        ensures { Resolves IsType (within_limits self.old.format
            (tree_over self.old.trees ty)) self.old self.new result }
    {
        if facts.nesting > MOST_NESTING {
            return Err(SchemaError::Fault(SchemaFault::Nest));
        }
        if facts.levels > self.format().most_levels() {
            return Err(SchemaError::Fault(SchemaFault::Levels));
        }
        if facts.default_len > MOST_DEFAULT {
            return Err(SchemaError::Fault(SchemaFault::Size));
        }
        Ok(self.push(Entry { ty, facts, order })?)
    }

    pub(crate) fn add_bitvector(&mut self, n: u64) -> Result<TypeId, SchemaError>
        ensures { Resolves IsType (of_length self.old.format n (bitvector n)) self.old self.new
            result }
    {
        if n == 0 {
            return Err(SchemaError::Fault(SchemaFault::ZeroLength));
        }
        let size = n.div_ceil(8);
        let chunk_count = n.div_ceil(256);
        let depth = depth_of_count(chunk_count);
        let facts = Facts {
            fixed_size: Some(size),
            default_len: size,
            chunk_count,
            depth,
            levels: depth,
            nesting: 1,
        };
        self.add_within_limits(Ty::Bitvector(n), facts, Vec::new(self.allocator()))
    }

    pub(crate) fn add_bitlist(&mut self, limit: u64) -> Result<TypeId, SchemaError>
        ensures { Resolves IsType (of_limit self.old.format limit (bitlist limit)) self.old self.new
            result }
    {
        if limit > self.format().greatest_limit() {
            return Err(SchemaError::Fault(SchemaFault::LimitTooBig));
        }
        let chunk_count = limit.div_ceil(256);
        let depth = depth_of_count(chunk_count);
        let facts = Facts {
            fixed_size: None,
            default_len: 1,
            chunk_count,
            depth,
            levels: depth + 1,
            nesting: 1,
        };
        self.add_within_limits(Ty::Bitlist(limit), facts, Vec::new(self.allocator()))
    }

    pub(crate) fn add_list(&mut self, elem: TypeId, limit: u64) -> Result<TypeId, SchemaError>
        requires { elem < length self.old.trees }
        ensures { Resolves IsType (of_limit self.old.format limit
            (list (type_of self.old elem) limit)) self.old self.new result }
    {
        if limit > self.format().greatest_limit() {
            return Err(SchemaError::Fault(SchemaFault::LimitTooBig));
        }
        let part = self.entry(elem).facts;
        let chunk_count = element_chunks(self.basic_size(elem), limit);
        let depth = depth_of_count(chunk_count);
        let facts = Facts {
            fixed_size: None,
            default_len: 0,
            chunk_count,
            depth,
            levels: depth + part.levels + 1,
            nesting: part.nesting + 1,
        };
        self.add_within_limits(Ty::List(elem, limit), facts, Vec::new(self.allocator()))
    }

    pub(crate) fn add_vector(&mut self, elem: TypeId, n: u64) -> Result<TypeId, SchemaError>
        requires { elem < length self.old.trees }
        ensures { Resolves IsType (of_length self.old.format n (vector (type_of self.old elem) n))
            self.old self.new result }
    {
        if n == 0 {
            return Err(SchemaError::Fault(SchemaFault::ZeroLength));
        }
        let part = self.entry(elem).facts;
        let chunk_count = element_chunks(self.basic_size(elem), n);
        let depth = depth_of_count(chunk_count);
        let default_len = n.saturating_mul(part_length(part.fixed_size, part.default_len));
        let facts = Facts {
            // The default of a fixed-size type has the type's size.
            fixed_size: size_if_fixed(part.fixed_size.is_some(), default_len),
            default_len,
            chunk_count,
            depth,
            levels: depth + part.levels,
            nesting: part.nesting + 1,
        };
        self.add_within_limits(Ty::Vector(elem, n), facts, Vec::new(self.allocator()))
    }

    // What the fields tell of their container.
    fn sums(&self, fields: &[(Name, TypeId)]) -> Sums
        requires { AllByRecursion (λ part. part.1 < length self.now.trees) fields.now }
        ensures sums { AreSums (fields_over self.now.trees fields.now) result }
        ensures levels { result.levels ≤ 126 }
        ensures nesting { result.nesting ≤ 32 }
    {
        let mut all_fixed = true;
        let mut default_len = 0u64;
        let mut levels = 0u32;
        let mut nesting = 0u32;
        for field in fields {
            let part = self.entry(field.1).facts;
            all_fixed = all_fixed & part.fixed_size.is_some();
            default_len = default_len.saturating_add(part_length(
                part.fixed_size,
                part.default_len,
            ));
            levels = levels.max(part.levels);
            nesting = nesting.max(part.nesting);
        }
        Sums {
            all_fixed,
            default_len,
            levels,
            nesting,
        }
    }

    pub(crate) fn add_container(
        &mut self,
        fields: Vec<(Name, TypeId)>,
        order: Vec<usize>,
    ) -> Result<TypeId, SchemaError>
        requires some { 0 < length fields.items }
        requires known { AllByRecursion (λ part. part.1 < length self.old.trees) fields.items }
        requires legal { AreLegalFields self.old.format (fields_over self.old.trees fields.items) }
        requires distinct { IsDistinct bytes_eq
            (field_names (fields_over self.old.trees fields.items)) }
        requires order { order.items
            ≡ name_order (field_names (fields_over self.old.trees fields.items)) }
        ensures { Resolves IsType (within_limits self.old.format
            (container (fields_over self.old.trees fields.items))) self.old self.new result }
    {
        let sums = self.sums(fields.as_slice());
        let chunk_count = fields.len() as u64;
        let depth = depth_of_count(chunk_count);
        let facts = Facts {
            // The default of a fixed-size type has the type's size.
            fixed_size: size_if_fixed(sums.all_fixed, sums.default_len),
            default_len: sums.default_len,
            chunk_count,
            depth,
            levels: depth + sums.levels,
            nesting: sums.nesting + 1,
        };
        self.add_within_limits(Ty::Container(fields), facts, order)
    }

    // The levels and the nesting of an option, None counting 0.
    fn option_sums(&self, option: Option<TypeId>) -> (u32, u32)
        requires { IsBelow (length self.now.trees) option }
        ensures sums { IsOption self.now.trees option result.0 result.1 }
        ensures levels { result.0 ≤ 126 }
        ensures nesting { result.1 ≤ 32 }
    {
        match option {
            Some(id) => {
                let facts = self.entry(id).facts;
                (facts.levels, facts.nesting)
            }
            None => (0, 0),
        }
    }

    // What the options tell of their union: the greatest levels and nesting.
    fn options_sums(&self, options: &[Option<TypeId>]) -> (u32, u32)
        requires { AllByRecursion (IsBelow (length self.now.trees)) options.now }
        ensures sums { AreOptionSums (options_over self.now.trees options.now) result.0 result.1 }
        ensures levels { result.0 ≤ 126 }
        ensures nesting { result.1 ≤ 32 }
    {
        let mut levels = 0u32;
        let mut nesting = 0u32;
        for option in options {
            let (option_levels, option_nesting) = self.option_sums(*option);
            levels = levels.max(option_levels);
            nesting = nesting.max(option_nesting);
        }
        (levels, nesting)
    }

    // The length of the first option's default.
    fn default_of_first(&self, options: &[Option<TypeId>]) -> u64
        requires { AllByRecursion (IsBelow (length self.now.trees)) options.now }
        ensures exact { result ≡ default_option_length (options_over self.now.trees options.now) }
        ensures small { result ≤ 2 ^ 24 }
    {
        match options.first() {
            Some(Some(id)) => self.entry(*id).facts.default_len,
            Some(None) => 0,
            None => 0,
        }
    }

    pub(crate) fn add_union(&mut self, options: Vec<Option<TypeId>>) -> Result<TypeId, SchemaError>
        requires some { 0 < length options.items }
        requires few { length options.items ≤ most_options }
        requires known { AllByRecursion (IsBelow (length self.old.trees)) options.items }
        requires legal { AreLegalOptions self.old.format
            (options_over self.old.trees options.items) }
        requires none { IsNoneFirst (options_over self.old.trees options.items) }
        ensures { Resolves IsType (within_limits self.old.format
            (union (options_over self.old.trees options.items))) self.old self.new result }
    {
        let (option_levels, option_nesting) = self.options_sums(options.as_slice());
        let first = self.default_of_first(options.as_slice());
        let facts = Facts {
            fixed_size: None,
            default_len: 1 + first,
            chunk_count: 1,
            depth: 0,
            levels: option_levels + 1,
            nesting: option_nesting + 1,
        };
        self.add_within_limits(Ty::Union(options), facts, Vec::new(self.allocator()))
    }
}
