ghost use Rattle.std.specs.Prelude.{◌≡◌, ◌≤◌, OnOk, OnErr};
ghost use Rattle.ssz_versions.specs.Compacted.{HasNodes, IsCompacted};

use super::tree::Tree;
use super::versions::Versions;
use ssz_arena::Arena;
use ssz_chunk::PairHash;
use std::alloc::AllocError;
use std::mem;

/// Compacts an arena to what the nodes of all versions reach. Each version keeps writer, name and
/// type, and its node is one of the new arena with the same tree and, where it had one, its root.
/// Fails for want of memory, and nothing is changed then.
pub fn compact<H: PairHash>(versions: &mut Versions, arena: &mut Arena<H>) -> Result<(), AllocError>
    requires { HasNodes versions.old.entries arena.old }
    ensures ok { OnOk result
        (IsCompacted versions.old.entries versions.new.entries arena.old arena.new) }
    ensures spare { versions.old.spare ≤ versions.new.spare }
    ensures err_versions { OnErr result (versions.new ≡ versions.old) }
    ensures err_arena { OnErr result (arena.new ≡ arena.old) }
{
    let mut nodes = Vec::with_capacity(arena.allocator(), versions.held.count(0)?)?;
    versions.held.nodes(&mut nodes);
    let made = arena.compact(&nodes)?;
    let held = mem::replace(&mut versions.held, Tree::empty());
    let (held, _) = held.with_nodes(&made.ids, 0);
    versions.held = held;
    *arena = made.arena;
    Ok(())
}
