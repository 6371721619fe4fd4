ghost use Rattle.std.specs.Prelude.{◌≡◌, ◌∷◌, ◌++◌, T, [], MatchOption};
ghost use Rattle.std.specs.FinMap.Entries.{is_sorted};
ghost use Rattle.ssz_versions.specs.Keys.{key_cmp};
ghost use Rattle.ssz_versions.specs.Trees.{without};

use super::balance::join;
use super::key::VersionKey;
use super::tree::{Branch, Cell, Entry, Tree};
use std::cmp::Ordering;

/// A first entry with its memory, and the entries behind it.
pub(crate) struct First {
    room: Box<Cell>,
    entry: Entry,
    rest: Tree,
}

impl Tree {
    /// Without what is held under the key.
    pub(crate) fn remove(self, key: &VersionKey) -> Tree
        requires { T (is_sorted key_cmp self) }
        ensures { result ≡ without key.now self }
    {
        let Some(branch) = self.open() else {
            return Tree::empty();
        };
        let Branch {
            room,
            left,
            entry,
            right,
        } = branch;
        match key.order(&entry.0) {
            Ordering::Less => join(room, left.remove(key), entry, right),
            Ordering::Equal => joined(left, right),
            Ordering::Greater => join(room, left, entry, right.remove(key)),
        }
    }

    // The first entry and the others. None where there are none.
    fn split_first(self) -> Option<First>
        ensures { MatchOption result (self ≡ []) (λ first. self ≡ first.entry ∷ first.rest) }
    {
        let Some(branch) = self.open() else {
            return None;
        };
        let Branch {
            room,
            left,
            entry,
            right,
        } = branch;
        match left.split_first() {
            None => Some(First {
                room,
                entry,
                rest: right,
            }),
            Some(first) => {
                let First {
                    room: first_room,
                    entry: first_entry,
                    rest,
                } = first;
                Some(First {
                    room: first_room,
                    entry: first_entry,
                    rest: join(room, rest, entry, right),
                })
            }
        }
    }
}

// The entries of both in one tree.
fn joined(left: Tree, right: Tree) -> Tree
    ensures { result ≡ left ++ right }
{
    match right.split_first() {
        None => left,
        Some(first) => {
            let First { room, entry, rest } = first;
            join(room, left, entry, rest)
        }
    }
}
