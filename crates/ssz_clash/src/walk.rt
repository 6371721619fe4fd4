ghost use Rattle.std.specs.Prelude.{◌≡◌, ◌+◌, ◌*◌, ◌<◌, ◌≤◌, MatchOption};
ghost use Rattle.ssz_proof.specs.Calculation.{calculate_root, indices_of};
ghost use Rattle.ssz_proof.specs.Multiproof.{IsOrdered, known_of};
ghost use Rattle.ssz_proof.specs.Descent.{IsReached, levels_below};
ghost use Rattle.ssz_clash.specs.Walks.{AreClashing, IsFirstWithin, pick_pairs};

use ssz_chunk::{Chunk, PairHash};
use ssz_gindex::Gindex;
use ssz_proof::Proof;

/// Two pairs of chunks below a place.
#[derive(Clone, Copy, Debug)]
pub(crate) struct Pairs {
    pub index: Gindex,
    pub first: (Chunk, Chunk),
    pub second: (Chunk, Chunk),
}

/// What two proofs say of a place: the chunks there, and the first clash there or below.
#[derive(Clone, Copy, Debug)]
pub(crate) struct Walked {
    pub first: Chunk,
    pub second: Chunk,
    pub clash: Option<Pairs>,
}

// Two pairs below a place, if they differ and the chunks there do not.
fn clash_here(first: &Chunk, second: &Chunk, here: Pairs) -> Option<Pairs>
    ensures { MatchOption result (AreClashing first.now second.now here → ⊥)
        (λ found. (found ≡ here) × AreClashing first.now second.now here) }
{
    if here.first == here.second {
        return None;
    }
    if *first != *second {
        return None;
    }
    Some(here)
}

// The first of clashes in preorder: that of a place itself, that to the left, that to the right.
fn pick(here: Option<Pairs>, left: Option<Pairs>, right: Option<Pairs>) -> Option<Pairs>
    ensures { result ≡ pick_pairs here left right }
{
    here.or(left).or(right)
}

/// Goes down two proofs of the same places side by side, and calculates each chunk once.
pub(crate) fn walk<H: PairHash>(
    first: &Proof,
    second: &Proof,
    index: Gindex,
    hasher: &mut H,
) -> Walked
    requires ordered_first { IsOrdered first.now }
    requires ordered_second { IsOrdered second.now }
    requires places { indices_of first.now.leaves ≡ indices_of second.now.leaves }
    requires positive { 0 < index }
    requires reached { IsReached first.now.leaves first.now.nodes index }
    ensures first { result.first.0 ≡ calculate_root H.pair_of (known_of first.now) index }
    ensures second { result.second.0 ≡ calculate_root H.pair_of (known_of second.now) index }
    ensures clash { IsFirstWithin H.pair_of first.now second.now index result.clash }
    ensures rises { H.pairs hasher.old ≤ H.pairs hasher.new }
    ensures pairs { H.pairs hasher.new
        ≤ H.pairs hasher.old + 2 * levels_below index (indices_of first.now.leaves) }
{
    if let Some(chunk) = first.chunk(index) {
        match second.chunk(index) {
            Some(other) => {
                return Walked {
                    first: chunk,
                    second: other,
                    clash: None,
                };
            }
            None => unreachable!(),
        }
    }
    let behind = index.right();
    let left = walk(first, second, behind.sibling(), hasher);
    let right = walk(first, second, behind, hasher);
    let here = Pairs {
        index,
        first: (left.first, right.first),
        second: (left.second, right.second),
    };
    let one = hasher.pair(&left.first, &right.first);
    let other = hasher.pair(&left.second, &right.second);
    let found = clash_here(&one, &other, here);
    Walked {
        first: one,
        second: other,
        clash: pick(found, left.clash, right.clash),
    }
}
