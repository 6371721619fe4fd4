ghost use Rattle.std.specs.Prelude.{◌≡◌, ℕ};

use std::marker::Model;

/// Which type of a schema, seen as its number. It is of use with the schema that gave it alone.
#[derive(Clone, Copy, Debug, PartialEq, Eq, PartialOrd, Ord)]
pub struct TypeId {
    index: usize,
}

impl Model for TypeId {
    ghost Value = { ℕ };

    ghost view = { λ a. a.index };

    ghost inverse = { λ n. record { index = n } };
}

impl TypeId {
    /// The type of this number. For `ssz_schema` alone, which numbers types: public, since nothing
    /// narrower reaches another crate.
    pub fn new(index: usize) -> Self
        ensures { result ≡ index }
    {
        TypeId { index }
    }

    /// The number. For `ssz_schema` alone, as `new` is.
    pub fn index(self) -> usize
        ensures { result ≡ self }
    {
        self.index
    }
}
