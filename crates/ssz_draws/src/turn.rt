use ssz_bytes::ByteRun;
use ssz_schema::{PathStep, TypeId};

/// What is drawn at a part.
#[derive(Debug, Drop)]
pub enum Turn {
    /// On to the part of it that the step leads to, of this type.
    On(TypeId, PathStep),
    /// The part is set to these bytes.
    Set(ByteRun),
    /// The bit of this number is set to this byte.
    SetBit(u64, ByteRun),
    /// The last element or bit is taken away.
    Pop,
    /// An element or bit of these bytes is added.
    Append(ByteRun),
    /// The union gets the option of this number, with its default.
    Choose(u8),
    /// The part is left as it is.
    Stop,
}

/// What becomes of a list or a bitlist.
#[derive(Clone, Copy, Debug, PartialEq, Eq)]
pub enum Change {
    /// An element or bit is changed.
    One,
    /// The last one is taken away.
    Taken,
    /// One is added.
    Added,
    /// Nothing.
    Nothing,
}
