ghost use Rattle.std.specs.Prelude.{◌≡◌, T, None, MatchOption};
ghost use Rattle.std.specs.FinMap.Entries.{find, is_sorted};
ghost use Rattle.ssz_versions.specs.Keys.{key_cmp};
ghost use Rattle.ssz_versions.specs.Branches.{IsRaised};

use super::balance::join;
use super::key::VersionKey;
use super::tree::{Branch, Tree};
use std::cmp::Ordering;

impl Tree {
    /// The entry of the key, with those to its left and to its right. None where there is none.
    pub(crate) fn raise(self, key: &VersionKey) -> Option<Branch>
        requires { T (is_sorted key_cmp self) }
        ensures { MatchOption result (find key_cmp key.now self ≡ None)
            (λ branch. IsRaised key.now self branch) }
    {
        let Some(branch) = self.open() else {
            return None;
        };
        let Branch {
            room,
            left,
            entry,
            right,
        } = branch;
        match key.order(&entry.0) {
            Ordering::Less => match left.raise(key) {
                None => None,
                Some(raised) => {
                    let Branch {
                        room: top_room,
                        left: outer,
                        entry: top,
                        right: inner,
                    } = raised;
                    Some(Branch {
                        room: top_room,
                        left: outer,
                        entry: top,
                        right: join(room, inner, entry, right),
                    })
                }
            },
            Ordering::Equal => Some(Branch {
                room,
                left,
                entry,
                right,
            }),
            Ordering::Greater => match right.raise(key) {
                None => None,
                Some(raised) => {
                    let Branch {
                        room: top_room,
                        left: inner,
                        entry: top,
                        right: outer,
                    } = raised;
                    Some(Branch {
                        room: top_room,
                        left: join(room, left, entry, inner),
                        entry: top,
                        right: outer,
                    })
                }
            },
        }
    }
}
