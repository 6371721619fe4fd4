// The way down a tree, a digit of an index at a time.
ghost use Rattle.std.specs.Prelude.{◌≡◌, ◌/◌, ◌%◌, ◌^◌, ◌<◌, ◌==◌, length};
ghost use Rattle.ssz_chunk.specs.Index.{digits};
ghost use Rattle.ssz_arena.specs.Content.{node_at};
ghost use Rattle.ssz_arena.specs.Copied.{AreOrdered};

use super::node::NodeId;
use super::store::Store;

// A binary digit of a number, by the half of it that has it: a shift of all its bits takes three
// times as long.
#[inline(always)]
pub(crate) fn digit(number: u128, place: u32) -> bool
    requires few { place < 128 }
    ensures { result ≡ (number / 2 ^ place % 2 == 1) }
{
    if place < 64 {
        return ((number % (1 << 64)) as u64 >> place) % 2 == 1;
    }
    ((number >> 64) as u64 >> (place - 64)) % 2 == 1
}

// The node at the end of a way: the last binary digits of a number.
#[inline(always)]
pub(crate) fn follow(store: &Store, id: NodeId, number: u64, steps: u32) -> Option<NodeId>
    requires inside { id.0 < length store.now.nodes }
    requires ordered { AreOrdered store.now.nodes }
    requires few { steps < 64 }
    ensures { result ≡ node_at store.now.nodes id (digits steps number) }
{
    let mut place = id;
    let mut left = steps;
    // The top bit is the digit followed last, and those to follow stand behind it.
    let mut rest = number << (63 - steps);
    'steps: while left > 0 {
        left -= 1;
        rest <<= 1;
        match store.child(place, rest >> 63 == 1) {
            None => return None,
            Some(next) => place = next,
        }
    }
    Some(place)
}

// The same of more digits, as to the elements of a long list: to the first of them the way begins
// with steps to the left, which are gone with no look at a digit. A call of its own, so that other
// ways take none. More than 63 digits are seldom: where lists stand in lists.
#[inline(never)]
pub(crate) fn follow_long(store: &Store, id: NodeId, number: u128, steps: u32) -> Option<NodeId>
    requires inside { id.0 < length store.now.nodes }
    requires ordered { AreOrdered store.now.nodes }
    requires few { steps < 128 }
    ensures { result ≡ node_at store.now.nodes id (digits steps number) }
{
    let mut place = id;
    let mut left = steps;
    'high: while left > 63 {
        left -= 1;
        match store.child(place, digit(number, left)) {
            None => return None,
            Some(next) => place = next,
        }
    }
    let low = (number % (1 << 64)) as u64;
    let zeros = (low % (1 << left))
        .leading_zeros()
        .saturating_sub(64 - left);
    let (start, gone) = store.lefts(place, zeros);
    follow(store, start, low, left - gone)
}
