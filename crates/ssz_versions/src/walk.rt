ghost use Rattle.std.specs.Prelude.{◌≡◌, ◌+◌, ◌≤◌, ◌++◌, T, map, length, drop, vec_len, vec_capacity, IfOk, OnOk};
ghost use Rattle.std.specs.FinMap.Entries.{is_sorted};
ghost use Rattle.ssz_versions.specs.Keys.{key_cmp};
ghost use Rattle.ssz_versions.specs.Lists.{entries_moved, relabelled};

use super::balance::fork;
use super::tree::{Branch, Cell, Entry, Top, Tree};
use ssz_arena::NodeId;
use ssz_schema::Name;
use std::alloc::{AllocError, Global};
use std::cmp::Ordering;

impl Tree {
    /// What a writer holds, in order, under the keys of another one. It goes where entries of the
    /// writer can be, and nowhere else.
    pub(crate) fn relabelled(
        &self,
        from: u8,
        to: u8,
        own: &mut Vec<Entry>,
    ) -> Result<(), AllocError>
        requires { T (is_sorted key_cmp self.now) }
        ensures { OnOk result (own.new.items ≡ own.old.items ++ relabelled from to self.now) }
    {
        let Top::Held(cell) = &self.top else {
            return Ok(());
        };
        let Cell::Full(fork) = &**cell else {
            return Ok(());
        };
        match fork.entry.0.writer().cmp(&from) {
            Ordering::Less => fork.right.relabelled(from, to, own),
            Ordering::Equal => {
                fork.left.relabelled(from, to, own)?;
                own.push((fork.entry.0.of(to), fork.entry.1))?;
                fork.right.relabelled(from, to, own)
            }
            Ordering::Greater => fork.left.relabelled(from, to, own),
        }
    }

    /// Appends the names that a writer holds, in order. It goes where entries of the writer can be,
    /// and nowhere else.
    pub(crate) fn names(
        &self,
        alloc: Global,
        writer: u8,
        names: &mut Vec<Name>,
    ) -> Result<(), AllocError>
        requires { T (is_sorted key_cmp self.now) }
        ensures { OnOk result (names.new.items ≡ names.old.items
            ++ map (λ entry. entry.0.1) (relabelled writer writer self.now)) }
    {
        let Top::Held(cell) = &self.top else {
            return Ok(());
        };
        let Cell::Full(fork) = &**cell else {
            return Ok(());
        };
        match fork.entry.0.writer().cmp(&writer) {
            Ordering::Less => fork.right.names(alloc, writer, names),
            Ordering::Equal => {
                fork.left.names(alloc, writer, names)?;
                names.push(Name::copy_of(alloc, fork.entry.0.name())?)?;
                fork.right.names(alloc, writer, names)
            }
            Ordering::Greater => fork.left.names(alloc, writer, names),
        }
    }

    /// How many entries there are, added to a number. Fails where the sum is none of a usize.
    pub(crate) fn count(&self, before: usize) -> Result<usize, AllocError>
        ensures { IfOk result (λ count. count ≡ before + length self.now) }
    {
        let Top::Held(cell) = &self.top else {
            return Ok(before);
        };
        let Cell::Full(fork) = &**cell else {
            return Ok(before);
        };
        let left = fork.left.count(before)?;
        let Some(own) = left.checked_add(1) else {
            return Err(AllocError);
        };
        fork.right.count(own)
    }

    /// The nodes of all entries, in order, for which there is room.
    pub(crate) fn nodes(&self, nodes: &mut Vec<NodeId>)
        requires { vec_len nodes.old + length self.now ≤ vec_capacity nodes.old }
        ensures nodes { nodes.new.items ≡ nodes.old.items ++ map (λ entry. entry.1.1) self.now }
        ensures capacity { vec_capacity nodes.new ≡ vec_capacity nodes.old }
    {
        let Top::Held(cell) = &self.top else {
            return;
        };
        let Cell::Full(fork) = &**cell else {
            return;
        };
        fork.left.nodes(nodes);
        nodes.push_reserved(fork.entry.1.1);
        fork.right.nodes(nodes);
    }

    /// The same entries with other nodes, those from a place on, and the place behind them.
    pub(crate) fn with_nodes(self, nodes: &[NodeId], at: usize) -> (Tree, usize)
        requires { at + length self ≤ length nodes.now }
        ensures tree { result.0 ≡ entries_moved self (drop at nodes.now) }
        ensures place { result.1 ≡ at + length self }
    {
        let Some(branch) = self.open() else {
            return (Tree::empty(), at);
        };
        let Branch {
            room,
            left,
            entry,
            right,
        } = branch;
        let (left, own) = left.with_nodes(nodes, at);
        let (right, end) = right.with_nodes(nodes, own + 1);
        let (key, held) = entry;
        (fork(room, left, (key, (held.0, nodes[own])), right), end)
    }
}
