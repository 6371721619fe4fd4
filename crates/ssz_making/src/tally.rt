ghost use Rattle.std.specs.Prelude.{ℕ, ◌≡◌, ◌+◌, ◌-◌, ◌*◌, ◌^◌, ◌<◌, min};
ghost use Rattle.ssz_chunk.specs.Tree.{merkle_pairs};
ghost use Rattle.ssz_making.specs.Tallies.{Tallies};

/// The pairs of a full tree of depth d above its first n places; u64::MAX stands for all numbers
/// from there on.
pub fn pairs_above(depth: u32, n: u64) -> u64
    ensures { result ≡ min (merkle_pairs depth n) (2 ^ 64 - 1) }
{
    let mut left = n;
    let mut pairs = 0u64;
    for j in 0..depth {
        // From here on a level has one pair, or none.
        if left <= 1 {
            return pairs.saturating_add(left * u64::from(depth - j));
        }
        left = left / 2 + left % 2;
        pairs = pairs.saturating_add(left);
    }
    pairs
}

/// The pairs of a part, and the nodes that are made for it. In both u64::MAX stands for all numbers
/// from there on.
#[derive(Clone, Copy)]
pub struct Tally {
    pub pairs: u64,
    pub nodes: u64,
}

impl Tally {
    /// Of nothing.
    pub(crate) fn none() -> Self
        ensures { Tallies 0 0 result }
    {
        Tally { pairs: 0, nodes: 0 }
    }

    /// Of a leaf.
    pub(crate) fn leaf() -> Self
        ensures { Tallies 0 1 result }
    {
        Tally { pairs: 0, nodes: 1 }
    }

    /// Of the pairs of a full tree of depth d above its first n places.
    pub(crate) fn above(depth: u32, n: u64) -> Self
        ensures { Tallies (merkle_pairs depth n) (merkle_pairs depth n) result }
    {
        let pairs = pairs_above(depth, n);
        Tally {
            pairs,
            nodes: pairs,
        }
    }

    /// Of a full tree of depth d over n chunks.
    pub(crate) fn chunks(depth: u32, n: u64) -> Self
        ensures { Tallies (merkle_pairs depth n) (merkle_pairs depth n + n) result }
    {
        let pairs = pairs_above(depth, n);
        Tally {
            pairs,
            nodes: pairs.saturating_add(n),
        }
    }

    /// Of both.
    pub(crate) fn plus(self, other: Tally) -> Self
        ensures { (p n q m : ℕ) → Tallies p n self → Tallies q m other
            → Tallies (p + q) (n + m) result }
    {
        Tally {
            pairs: self.pairs.saturating_add(other.pairs),
            nodes: self.nodes.saturating_add(other.nodes),
        }
    }

    /// Of so many alike.
    pub(crate) fn times(self, count: u64) -> Self
        requires { 0 < count }
        ensures { (p n : ℕ) → Tallies p n self → Tallies (p * count) (n * count) result }
    {
        Tally {
            pairs: self.pairs.saturating_mul(count),
            nodes: self.nodes.saturating_mul(count),
        }
    }

    /// With a leaf to its right: that of a length or of a selector.
    pub(crate) fn joined(self) -> Self
        ensures { (p n : ℕ) → Tallies p n self → Tallies (p + 1) (n + 2) result }
    {
        Tally {
            pairs: self.pairs.saturating_add(1),
            nodes: self.nodes.saturating_add(2),
        }
    }
}
