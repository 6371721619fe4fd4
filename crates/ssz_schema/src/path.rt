use ssz_types::Name;

/// One step from a value to a part of it.
#[derive(Debug, Drop)]
pub enum PathStep {
    /// The field of this name, of a container.
    Field(Name),
    /// The element or bit of this number, of a vector, list, bitvector or bitlist.
    Index(u64),
    /// The length of a list or bitlist, a uint64.
    Len,
    /// The selector of a union, a uint8.
    Selector,
    /// The value of a union, where its selector is this one and the option is not None.
    Option(u8),
}
