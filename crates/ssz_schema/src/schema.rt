ghost use Rattle.std.specs.Prelude.{◌≡◌, ◌<◌, ◌≤◌, ◌^◌, [], ◌∷◌, ◌++◌, length, take, option_map, IfOk, OnOk, OnErr};
ghost use Rattle.std.specs.List.{AllByRecursion};
ghost use Rattle.std.specs.Option.{ForSome};
ghost use Rattle.ssz_types.specs.Unfolding.{type_of, tree_over, AreBelow, type_number};
ghost use Rattle.ssz_types.specs.Sizes.{is_variable, fixed_size, basic_size, chunk_count, depth, type_levels, default_length};
ghost use Rattle.ssz_types.specs.Types.{uint, boolean};
ghost use Rattle.ssz_types.specs.Legal.{IsLegal, IsSize, most_levels};
ghost use Rattle.ssz_types.specs.Lookup.{name_for};
ghost use Rattle.ssz_types.specs.Order.{field_order};
ghost use Rattle.ssz_types.specs.NameTables.{IsInOrder};

use ssz_types::{Entry, Format, Name, NameTable, Ty, TypeId, Width, copied_entries};
use std::alloc::{AllocError, Global};
use std::marker::Model;

/// Types, each made of types before it, and their names.
///
/// A contract sees a schema as its format, its names and the tree of each of its types.
#[derive(Drop)]
pub struct Schema {
    format: Format,
    entries: Vec<Entry>,
    names: NameTable,
}

impl Model for Schema {
    ghost use Rattle.ssz_types.specs.Unfolding.{Types, coded_types};

    ghost Value = { Types };

    ghost coded = { coded_types };

    ghost use Rattle.ssz_schema.specs.Inside.{types_of, IsSchema};

    ghost view = { types_of };

    ghost invariant = { IsSchema };
}

impl Schema {
    ghost use Rattle.ssz_schema.specs.Inside.{IsSchemaEntry, IsSoundEntry, IsWhole, AreSmall, AreAllLegal, NamesAreBelow};
    ghost use Rattle.ssz_schema.specs.Adding.{NamesType, Knows, IsFreshSchema, IsType};
    ghost use Rattle.ssz_schema.specs.Inside.{basic_types};

    /// A schema of format 1 with the built-in names alone: boolean, byte, uint8, uint16, uint32,
    /// uint64, uint128 and uint256, where byte is uint8.
    pub fn empty(alloc: Global) -> Result<Schema, AllocError>
        ensures { IfOk result (IsFreshSchema Format.One) }
    {
        Schema::empty_for(alloc, Format::One)
    }

    /// The same of this format.
    pub fn empty_for(alloc: Global, format: Format) -> Result<Schema, AllocError>
        ensures { IfOk result (IsFreshSchema format) }
    {
        let mut schema = Schema::unnamed(alloc, format)?;
        schema.name_basics()?;
        Ok(schema)
    }

    // The basic types without names.
    fn unnamed(alloc: Global, format: Format) -> Result<Schema, AllocError>
        ensures { IfOk result (λ schema. schema ≡ record
            { format = format; trees = basic_types; names = [] }) }
    {
        let basics = [
            Entry::boolean(alloc),
            Entry::uint(alloc, Width::W8),
            Entry::uint(alloc, Width::W16),
            Entry::uint(alloc, Width::W32),
            Entry::uint(alloc, Width::W64),
            Entry::uint(alloc, Width::W128),
            Entry::uint(alloc, Width::W256),
        ];
        Ok(Schema {
            format,
            entries: Vec::from_array(alloc, basics)?,
            names: NameTable::new(alloc),
        })
    }

    // Gives the basic types their built-in names.
    fn name_basics(&mut self) -> Result<(), AllocError>
        requires trees { self.old.trees ≡ basic_types }
        requires names { self.old.names ≡ [] }
        ensures { OnOk result (IsFreshSchema self.old.format self.new) }
    {
        self.name_uint(b"uint256", Width::W256)?;
        self.name_uint(b"uint128", Width::W128)?;
        self.name_uint(b"uint64", Width::W64)?;
        self.name_uint(b"uint32", Width::W32)?;
        self.name_uint(b"uint16", Width::W16)?;
        self.name_uint(b"uint8", Width::W8)?;
        self.name_uint(b"byte", Width::W8)?;
        let boolean = self.boolean();
        self.insert_name(b"boolean", boolean)
    }

    // Gives a built-in name to a number type.
    fn name_uint(&mut self, name: &[u8], width: Width) -> Result<(), AllocError>
        ensures { OnOk result (Knows name.now (uint width) self.old self.new) }
    {
        let id = self.uint(width);
        self.insert_name(name, id)
    }

    // The type of numbers of this width.
    pub(crate) fn uint(&self, width: Width) -> TypeId
        ensures { IsType self.now result (uint width) }
    {
        let _ = &self.entries;
        TypeId::new(match width {
            Width::W8 => 1,
            Width::W16 => 2,
            Width::W32 => 3,
            Width::W64 => 4,
            Width::W128 => 5,
            Width::W256 => 6,
        })
    }

    // The type of booleans.
    pub(crate) fn boolean(&self) -> TypeId
        ensures { IsType self.now result boolean }
    {
        let _ = &self.entries;
        TypeId::new(0)
    }

    /// The format, which stays as it was given.
    pub fn format(&self) -> Format
        ensures { result ≡ self.now.format }
    {
        self.format
    }

    // What is known of the type of this number.
    pub(crate) fn entry(&self, id: TypeId) -> &Entry
        requires { id < length self.now.trees }
        ensures entry { IsSchemaEntry self.now id result.now }
        ensures small { AreSmall result.now.facts }
    {
        &self.entries[id.index()]
    }

    // How many types there are.
    pub(crate) fn count(&self) -> usize
        ensures exact { result ≡ length self.now.trees }
        ensures whole { IsWhole self.now }
    {
        self.entries.len()
    }

    // Puts a type behind the others.
    pub(crate) fn push(&mut self, entry: Entry) -> Result<TypeId, AllocError>
        requires { IsSoundEntry self.old.format self.old.trees entry }
        ensures number { IfOk result (λ id. id ≡ length self.old.trees) }
        ensures added { OnOk result (self.new ≡ record self.old
            { trees = self.old.trees ++ tree_over self.old.trees entry.ty ∷ [] }) }
        ensures kept { OnErr result (self.new ≡ self.old) }
    {
        let id = TypeId::new(self.entries.len());
        self.entries.push(entry)?;
        Ok(id)
    }

    // Takes the types from this number on away, which have no names.
    pub(crate) fn truncate(&mut self, count: usize)
        requires basics { 7 ≤ count }
        requires names { NamesAreBelow self.old.names count }
        ensures { self.new ≡ record self.old { trees = take count self.old.trees } }
    {
        self.entries.truncate(count);
    }

    // Gives a name to a type.
    pub(crate) fn insert_name(&mut self, name: &[u8], id: TypeId) -> Result<(), AllocError>
        requires { id < length self.old.trees }
        ensures added { OnOk result (NamesType name.now self.old self.new id) }
        ensures kept { OnErr result (self.new ≡ self.old) }
    {
        self.names.insert(name, id)
    }

    // The allocator that the schema keeps, with what is known of every schema.
    pub(crate) fn allocator(&self) -> Global
        ensures whole { IsWhole self.now }
        ensures legal { AreAllLegal self.now }
    {
        *self.entries.allocator()
    }

    /// The type of the name, or None exactly where no type has the name.
    pub fn find(&self, name: &str) -> Option<TypeId>
        ensures exact { result ≡ type_number self.now name.now }
        ensures known { ForSome result (λ id. id < length self.now.trees) }
    {
        self.find_bytes(name.as_bytes())
    }

    /// The same of a `Name`.
    pub fn find_name(&self, name: &Name) -> Option<TypeId>
        ensures exact { result ≡ type_number self.now name.now }
        ensures known { ForSome result (λ id. id < length self.now.trees) }
    {
        self.find_bytes(name.as_bytes())
    }

    fn find_bytes(&self, name: &[u8]) -> Option<TypeId>
        ensures exact { result ≡ type_number self.now name.now }
        ensures known { ForSome result (λ id. id < length self.now.trees) }
    {
        self.names.find(name)
    }

    /// Every name, the built-in ones too, in byte order, each with its type.
    pub fn names(&self, alloc: Global) -> Result<Vec<(Name, TypeId)>, AllocError>
        ensures exact { IfOk result (λ names. names.items ≡ self.now.names) }
        ensures order { IfOk result (λ names. IsInOrder names.items) }
        ensures known { IfOk result (λ names.
            AllByRecursion (λ name. name.1 < length self.now.trees) names.items) }
    {
        self.names.listed(alloc)
    }

    /// The first name in byte order of the type, or None exactly where no name is its.
    pub fn name_of(&self, id: TypeId) -> Option<&[u8]>
        ensures { option_map (λ name. name.now) result ≡ name_for self.now.names id }
    {
        self.names.name_of(id)
    }

    /// A schema of its own with the same format, types and names.
    pub fn copied(&self, alloc: Global) -> Result<Schema, AllocError>
        ensures { IfOk result (λ schema. schema ≡ self.now) }
    {
        Ok(Schema {
            format: self.format,
            entries: copied_entries(alloc, self.entries.as_slice())?,
            names: self.names.copied(alloc)?,
        })
    }

    /// The form of the type, with types before it as parts.
    pub fn ty(&self, id: TypeId) -> &Ty
        requires { id < length self.now.trees }
        ensures form { tree_over self.now.trees result.now ≡ type_of self.now id }
        ensures before { AreBelow id result.now }
        ensures legal { IsLegal self.now.format (type_of self.now id) }
    {
        &self.entry(id).ty
    }

    /// The numbers of a container's fields in byte order of their names, as JSON texts have them;
    /// none of another type.
    pub fn field_order(&self, id: TypeId) -> &[usize]
        requires { id < length self.now.trees }
        ensures { result.now ≡ field_order (type_of self.now id) }
    {
        self.entry(id).order.as_slice()
    }

    /// Whether the type is variable-size: a list, bitlist or union, or a type that contains one.
    pub fn is_variable(&self, id: TypeId) -> bool
        requires { id < length self.now.trees }
        ensures { result ≡ is_variable (type_of self.now id) }
    {
        self.fixed_size(id).is_none()
    }

    #[tactic(auto, using(crate::proofs::SizeLemmas::sizes))]
    /// The length in bytes of every encoding of the type, or None exactly for variable-size types.
    pub fn fixed_size(&self, id: TypeId) -> Option<u64>
        requires { id < length self.now.trees }
        ensures exact { result ≡ fixed_size (type_of self.now id) }
        ensures in_range { ForSome result IsSize }
    {
        self.entry(id).facts.fixed_size
    }

    /// The size of a basic type, a number or a boolean: 1 to 32 bytes.
    /// None exactly for composite types.
    pub fn basic_size(&self, id: TypeId) -> Option<u64>
        requires { id < length self.now.trees }
        ensures exact { result ≡ basic_size (type_of self.now id) }
        ensures at_most { ForSome result (λ z. z ≤ 32) }
    {
        match self.ty(id) {
            Ty::Uint(width) => Some(width.byte_count()),
            Ty::Boolean => Some(1),
            _ => None,
        }
    }

    /// The length in bytes of the encoding of the type's default, at most 2^24.
    pub fn default_len(&self, id: TypeId) -> u64
        requires { id < length self.now.trees }
        ensures exact { result ≡ default_length (type_of self.now id) }
        ensures at_most { result ≤ 2 ^ 24 }
    {
        self.entry(id).facts.default_len
    }

    /// The standard's chunk_count of the type, and 1 for a union; at most 2^62.
    pub fn chunk_count(&self, id: TypeId) -> u64
        requires { id < length self.now.trees }
        ensures exact { result ≡ chunk_count (type_of self.now id) }
        ensures at_most { result ≤ 2 ^ 62 }
    {
        self.entry(id).facts.chunk_count
    }

    /// The exponent of next_pow_of_two(chunk_count), at most 62.
    pub fn depth(&self, id: TypeId) -> u32
        requires { id < length self.now.trees }
        ensures exact { result ≡ depth (type_of self.now id) }
        ensures at_most { result ≤ 62 }
    {
        self.entry(id).facts.depth
    }

    /// The length of the longest path in the type's tree, at most 63
    /// in format 1 and 126 in format 2.
    pub fn levels(&self, id: TypeId) -> u32
        requires { id < length self.now.trees }
        ensures exact { result ≡ type_levels (type_of self.now id) }
        ensures in_format { result ≤ most_levels self.now.format }
        ensures at_most { result ≤ 126 }
    {
        self.entry(id).facts.levels
    }
}
