use ssz_chunk::Chunk;
use ssz_gindex::Gindex;

/// What two proofs of the same places come to that lead to the same root.
#[derive(Clone, Copy, Debug, PartialEq, Eq)]
pub enum Clash {
    /// All leaves agree.
    Same,
    /// Two unlike pairs of chunks give the same chunk.
    Unlike {
        /// The place of the chunk.
        index: Gindex,
        /// The chunks to the left and to the right below it, by the first proof.
        first: (Chunk, Chunk),
        /// Those by the second proof.
        second: (Chunk, Chunk),
    },
}
