use ssz_chunk::Chunk;

/// Why two proofs are not compared chunk by chunk.
#[derive(Clone, Copy, Debug, PartialEq, Eq)]
pub enum ClashFault {
    /// Their leaves are at other indices.
    OtherIndices,
    /// They lead to other roots: that of the first, and that of the second.
    OtherRoot(Chunk, Chunk),
}
