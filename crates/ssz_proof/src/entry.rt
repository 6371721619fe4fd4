use ssz_chunk::Chunk;
use ssz_gindex::Gindex;

/// A chunk at a place of a tree.
#[derive(Clone, Copy, Debug, PartialEq, Eq)]
pub struct Entry {
    pub index: Gindex,
    pub chunk: Chunk,
}
