ghost use Rattle.std.specs.Prelude.{◌≡◌, ◌+◌, ◌*◌, ◌/◌, ◌^◌, ◌<◌, ◌↔◌, IsSome, IfSome};
ghost use Rattle.ssz_chunk.specs.Index.{levels};
ghost use Rattle.ssz_gindex.specs.Helpers.{sibling, is_within};

use std::marker::Model;

/// The place of a node below a root, which is 1: the children of k are 2k, to the left, and
/// 2k + 1 (merkle-proofs.md, Generalized Merkle tree index).
#[derive(Clone, Copy, Debug, PartialEq, Eq, PartialOrd, Ord)]
pub struct Gindex {
    number: u128,
}

// Its number, which is not 0.
impl Model for Gindex {
    ghost use Rattle.std.specs.Prelude.{ℕ, ◌<◌};

    ghost Value = { ℕ };

    ghost view = { λ a. a.number };

    ghost invariant = { λ a. 0 < a.number };

    ghost inverse = { λ n. record { number = n } };
}

impl Gindex {
    /// The index of a number, unless that is 0.
    pub fn new(number: u128) -> Option<Gindex>
        ensures some { IsSome result ↔ (0 < number) }
        ensures number { IfSome result (λ index. index ≡ number) }
    {
        if number == 0 {
            return None;
        }
        Some(Gindex { number })
    }

    /// The index of the whole tree: 1.
    pub fn root() -> Gindex
        ensures { result ≡ 1 }
    {
        Gindex { number: 1 }
    }

    // The index so far to the right of another one, on the same level.
    pub(crate) fn behind(number: u128, position: u64) -> Gindex
        requires some { 0 < number }
        requires room { number + position < 2 ^ 128 }
        ensures { result ≡ number + position }
    {
        Gindex {
            number: number + u128::from(position),
        }
    }

    /// Its number.
    pub fn get(self) -> u128
        ensures number { result ≡ self }
        ensures positive { 0 < result }
    {
        self.number
    }

    /// The other child of its parent (generalized_index_sibling). The root, 1, has none.
    pub fn sibling(self) -> Gindex
        requires { 1 < self }
        ensures { result ≡ sibling self }
    {
        Gindex {
            number: self.number ^ 1,
        }
    }

    /// The node above (generalized_index_parent). The root, 1, has none.
    pub fn parent(self) -> Gindex
        requires { 1 < self }
        ensures { result ≡ self / 2 }
    {
        Gindex {
            number: self.number / 2,
        }
    }

    /// The child to the right: 2k + 1. Below the index of a list or a union it is the place of the
    /// length or the selector.
    pub fn right(self) -> Gindex
        requires { self < 2 ^ 127 }
        ensures { result ≡ 2 * self + 1 }
    {
        Gindex {
            number: 2 * self.number + 1,
        }
    }

    /// Whether it is the other index, or lies below it.
    pub fn is_within(self, upper: Gindex) -> bool
        ensures { result ≡ is_within upper self }
    {
        let levels = self.levels();
        let above = upper.levels();
        above <= levels && self.number >> (levels - above) == upper.number
    }

    /// How many steps it is below the root: its binary digits less one
    /// (get_generalized_index_length).
    pub fn levels(self) -> u32
        ensures exact { result ≡ levels self }
        ensures few { result < 128 }
    {
        self.number.ilog2()
    }
}
