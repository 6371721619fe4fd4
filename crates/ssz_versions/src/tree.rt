ghost use Rattle.std.specs.Prelude.{◌≡◌, [], Some, MatchOption, option_map};
ghost use Rattle.std.specs.Borrow.{sem};
ghost use Rattle.ssz_versions.specs.LentFork.{LendsFork, LendsNodeOf};
ghost use Rattle.ssz_versions.specs.Branches.{in_branch, IsTopOf};
ghost use Rattle.ssz_versions.specs.declared.tree.Cell.TheVariants.{Blank, Full};

use super::key::VersionKey;
use ssz_arena::NodeId;
use ssz_schema::TypeId;
use std::marker::Model;
use std::mem;

/// A key, and what is held under it.
pub(crate) type Entry = (VersionKey, (TypeId, NodeId));

/// Entries in a tree, seen as the list of them from left to right.
#[cycle(tree)]
#[derive(Debug, Drop)]
pub(crate) struct Tree {
    pub(crate) top: Top,
}

/// Nothing, or the memory of the uppermost entry.
#[cycle(tree)]
#[derive(Debug, Drop)]
pub(crate) enum Top {
    Empty,
    Held(Box<Cell>),
}

/// Memory for an entry: blank, or the entry between those of the left and those of the right.
#[cycle(tree)]
#[derive(Debug, Drop)]
pub(crate) enum Cell {
    Blank,
    Full(Fork),
}

/// An entry between those to its left and those to its right. The height is one more than that of
/// the higher side.
#[cycle(tree)]
#[derive(Debug, Drop)]
pub(crate) struct Fork {
    pub(crate) left: Tree,
    pub(crate) entry: Entry,
    height: u8,
    pub(crate) right: Tree,
}

impl Model for Tree {
    ghost use Rattle.std.specs.Prelude.{List, length};
    ghost use Rattle.std.specs.Coded.{coded×, coded_list};
    ghost use Rattle.ssz_versions.specs.Content.{Held, held_code};
    ghost use Rattle.ssz_versions.specs.Keys.{Key, key_code};

    ghost Value = { List (Key × Held) };

    ghost coded = { coded_list (coded× key_code held_code) };

    ghost use Rattle.ssz_versions.specs.Trees.{entries_of};

    ghost view = { λ a. entries_of a.top };

    ghost size = { length };

    ghost use Rattle.ssz_versions.specs.Falls.{falls};

    ghost size_decreases = { λ a h. falls a.top };
}

/// An entry between those of two trees, and memory for it.
#[derive(Drop)]
pub(crate) struct Branch {
    pub(crate) room: Box<Cell>,
    pub(crate) left: Tree,
    pub(crate) entry: Entry,
    pub(crate) right: Tree,
}

impl Cell {
    fn lend(&mut self) -> Option<&mut Fork>
        ensures* writes_back { sem 𝓛 (LendsFork self.entry result) }
        ensures fork { MatchOption result (self.old ≡ Blank) (λ fork. self.old ≡ Full fork.now) }
    {
        match self {
            Cell::Blank => None,
            Cell::Full(fork) => Some(fork),
        }
    }
}

impl Tree {
    /// No entries.
    pub(crate) fn empty() -> Self
        ensures { result ≡ [] }
    {
        Tree { top: Top::Empty }
    }

    /// How many entries stand below one another, and 0 for none.
    pub(crate) fn height(&self) -> u8 {
        let Top::Held(cell) = &self.top else {
            return 0;
        };
        match &**cell {
            Cell::Blank => 0,
            Cell::Full(fork) => fork.height,
        }
    }

    /// The uppermost entry, with the trees to its left and to its right. None where there is none.
    pub(crate) fn open(self) -> Option<Branch>
        ensures { MatchOption result (self ≡ []) (λ branch. self ≡ in_branch branch) }
    {
        let Top::Held(mut room) = self.top else {
            return None;
        };
        match mem::replace(&mut *room, Cell::Blank) {
            Cell::Blank => None,
            Cell::Full(
                Fork {
                    left,
                    entry,
                    height: _,
                    right,
                },
            ) => Some(Branch {
                room,
                left,
                entry,
                right,
            }),
        }
    }
}

impl Branch {
    // The tree of these entries, with this one uppermost.
    fn top(self) -> Top
        ensures { IsTopOf self result }
    {
        let Branch {
            mut room,
            left,
            entry,
            right,
        } = self;
        let height = left.height().max(right.height()).saturating_add(1);
        *room = Cell::Full(Fork {
            left,
            entry,
            height,
            right,
        });
        Top::Held(room)
    }

    /// The tree of these entries, with this one uppermost.
    pub(crate) fn close(self) -> Tree
        ensures { result ≡ in_branch self }
    {
        Tree { top: self.top() }
    }
}

impl Tree {
    /// Puts the tree of a branch in place, and lends the node of its entry for writing another one.
    pub(crate) fn lend_closed(&mut self, branch: Branch) -> Option<&mut NodeId>
        ensures* writes_back { sem 𝓛 (LendsNodeOf self.entry branch result) }
        ensures node { option_map (λ id. id.now) result ≡ Some branch.entry.1.1 }
    {
        self.top = branch.top();
        match &mut self.top {
            Top::Empty => None,
            Top::Held(room) => match room.lend() {
                None => None,
                Some(fork) => Some(&mut fork.entry.1.1),
            },
        }
    }
}
