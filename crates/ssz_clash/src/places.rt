ghost use Rattle.std.specs.Prelude.{◌≡◌, ◌↔◌, IsTrue};
ghost use Rattle.ssz_proof.specs.Calculation.{indices_of};

use ssz_proof::Entry;

/// Whether entries are at the same indices, in the same order.
pub(crate) fn same_places(first: &[Entry], second: &[Entry]) -> bool
    ensures { IsTrue result ↔ (indices_of first.now ≡ indices_of second.now) }
{
    if first.len() != second.len() {
        return false;
    }
    for i in 0..first.len() {
        if first[i].index != second[i].index {
            return false;
        }
    }
    true
}

/// Whether entries are the same, in the same order.
pub(crate) fn same_entries(first: &[Entry], second: &[Entry]) -> bool
    ensures { IsTrue result ↔ (first.now ≡ second.now) }
{
    first == second
}
