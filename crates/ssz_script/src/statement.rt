use super::indices::Indices;
use ssz_bytes::ByteRun;
use ssz_line::{FileName, Identifier, Steps};

/// A statement of a script. Its fields stand in the order of the line's words.
#[derive(Debug, Drop)]
pub enum Statement {
    /// `new V T`: V is the default of the type T.
    New(Identifier, Identifier),
    /// `lit V T LIT`: V is the value of T that the literal encodes.
    Lit(Identifier, Identifier, ByteRun),
    /// `load V T FILE`: V is the value of T that the file encodes.
    Load(Identifier, Identifier, FileName),
    /// `fork V W`: W has the value of V.
    Fork(Identifier, Identifier),
    /// `drop V`: V is gone.
    Drop(Identifier),
    /// `list`: the names of the writer's versions.
    List,
    /// `set V P LIT`: the part at P becomes the literal's value.
    Set(Identifier, Steps, ByteRun),
    /// `append V P LIT`: the list or bitlist at P gets an element.
    Append(Identifier, Steps, ByteRun),
    /// `pop V P`: the list or bitlist at P loses its last element.
    Pop(Identifier, Steps),
    /// `choose V P SEL [LIT]`: the union at P has the option SEL, with the literal's value or its
    /// default.
    Choose(Identifier, Steps, u8, Option<ByteRun>),
    /// `root V`: the hash tree root.
    Root(Identifier),
    /// `bytes V P`: the encoding of the part at P.
    Bytes(Identifier, Steps),
    /// `len V P`: how many elements or bits the part at P has.
    Len(Identifier, Steps),
    /// `save V FILE`: writes the encoding.
    Save(Identifier, FileName),
    /// `gindex T P`: the generalized index of P by the type T.
    Gindex(Identifier, Steps),
    /// `prove V I ..`: a multiproof of the indices.
    Prove(Identifier, Indices),
    /// `hashes`: how many pairs were hashed.
    Hashes,
    /// `upgrade V W T`: W, of the container T, takes the fields of V that T has too.
    Upgrade(Identifier, Identifier, Identifier),
    /// `json V P`: the JSON text of the part at P.
    Json(Identifier, Steps),
    /// `loadjson V T FILE`: V is the value of T whose JSON text the file holds.
    LoadJson(Identifier, Identifier, FileName),
    /// `compact`: nodes that no version needs are given up.
    Compact,
}
