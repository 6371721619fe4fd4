ghost use Rattle.std.specs.Prelude.{◌≡◌, ◌<◌, length};

use ssz_line::Index;
use std::marker::Model;

/// One or more indices, seen as a list.
#[derive(Debug, Drop)]
pub struct Indices {
    indices: Vec<Index>,
}

impl Model for Indices {
    ghost use Rattle.std.specs.Prelude.{List, ◌<◌, length};
    ghost use Rattle.ssz_line.specs.declared.index.Index.{Index};

    ghost Value = { List Index };

    ghost view = { λ a. a.indices.items };

    ghost invariant = { λ a. 0 < length a.indices.items };
}

impl Indices {
    /// The indices of this vector, which holds at least one.
    pub fn new(indices: Vec<Index>) -> Self
        requires { 0 < length indices.items }
        ensures { result ≡ indices.items }
    {
        Indices { indices }
    }

    /// The indices in order, at least one.
    pub fn as_slice(&self) -> &[Index]
        ensures indices { result.now ≡ self.now }
        ensures some { 0 < length self.now }
    {
        self.indices.as_slice()
    }
}
