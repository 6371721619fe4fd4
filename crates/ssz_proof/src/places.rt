// Where entries have an index, by halves.
ghost use Rattle.ssz_proof.specs.Calculation.{indices_of};
ghost use Rattle.ssz_proof.specs.Descent.{IsAscending, IsDescending, IsPlaceOf};

use crate::entry::Entry;

/// The place of the entry at an index, of entries in ascending order.
pub fn ascending_place(entries: &[Entry], index: u128) -> Option<usize>
    requires { IsAscending (indices_of entries.now) }
    ensures { IsPlaceOf index entries.now result }
{
    entries
        .binary_search_by(|entry| entry.index.get().cmp(&index))
        .ok()
}

/// The place of the entry at an index, of entries in descending order.
pub fn descending_place(entries: &[Entry], index: u128) -> Option<usize>
    requires { IsDescending (indices_of entries.now) }
    ensures { IsPlaceOf index entries.now result }
{
    entries
        .binary_search_by(|entry| index.cmp(&entry.index.get()))
        .ok()
}
