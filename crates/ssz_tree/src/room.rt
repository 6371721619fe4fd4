ghost use Rattle.std.specs.Prelude.{◌≡◌, ℕ, ◌+◌, ◌*◌, ◌-◌, ◌^◌, ◌≤◌, min, max, IsOk, OnOk, OnErr};
ghost use Rattle.ssz_arena.specs.Content.{node_count};
ghost use Rattle.ssz_tree.specs.Added.{TakesRoom};

use ssz_arena::Arena;
use ssz_chunk::PairHash;
use std::alloc::AllocError;

/// Makes room for so many nodes, where u64::MAX stands for all numbers from there on: for these and
/// no more where they are as many as those that are there, else as an arena grows little by
/// little. Fails for want of memory.
pub fn reserve_nodes<H: PairHash>(arena: &mut Arena<H>, nodes: u64) -> Result<(), AllocError>
    ensures nodes { arena.new.nodes ≡ arena.old.nodes }
    ensures more { arena.old.spare ≤ arena.new.spare }
    ensures ok { OnOk result ((n : ℕ) → nodes ≡ min n (2 ^ 64 - 1) → n ≤ arena.new.spare) }
    ensures exact { node_count arena.old ≤ nodes
        → OnOk result (arena.new.spare ≡ max nodes arena.old.spare) }
    ensures enough { (n : ℕ) → nodes ≡ min n (2 ^ 64 - 1) → n ≤ arena.old.spare → IsOk result }
    ensures stays { nodes ≤ arena.old.spare → arena.new ≡ arena.old }
    ensures most { TakesRoom nodes arena.old arena.new }
    ensures err { OnErr result (arena.new ≡ arena.old) }
{
    if nodes <= arena.spare() as u64 {
        return Ok(());
    }
    if nodes == u64::MAX {
        return Err(AllocError);
    }
    if nodes < arena.len() as u64 {
        arena.reserve(nodes as usize)
    } else {
        arena.reserve_exact(nodes as usize)
    }
}

/// How many nodes are made at most for a part of so many pairs: twice as many and one. In both
/// numbers u64::MAX stands for all numbers from there on.
pub fn nodes_for(pairs: u64) -> u64
    ensures { (n : ℕ) → pairs ≡ min n (2 ^ 64 - 1) → result ≡ min (2 * n + 1) (2 ^ 64 - 1) }
{
    pairs.saturating_add(pairs).saturating_add(1)
}
