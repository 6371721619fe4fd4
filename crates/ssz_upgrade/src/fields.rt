ghost use Rattle.std.specs.Prelude.{◌≡◌, ◌^◌, ◌≤◌, map, IfOk, IfSome};
ghost use Rattle.ssz_arena.specs.Content.{IsNodeOf};
ghost use Rattle.ssz_upgrade.specs.Fields.{AreFieldNodes, IsFieldAt, pick};

use ssz_arena::{Arena, NodeId};
use ssz_chunk::PairHash;
use ssz_gindex::Gindex;
use std::alloc::{AllocError, Global};

/// The nodes of the first fields of a container whose fields lie at this depth. It ends before a
/// field that is not there, as in no tree of a value. Fails for want of memory alone.
pub fn field_nodes<H: PairHash>(
    alloc: Global,
    arena: &Arena<H>,
    node: NodeId,
    depth: u32,
    count: usize,
) -> Result<Vec<NodeId>, AllocError>
    requires node { IsNodeOf arena.now node }
    requires depth { depth ≤ 126 }
    requires few { count ≤ 2 ^ depth }
    ensures { IfOk result (λ nodes. AreFieldNodes arena.now node depth count nodes.items) }
{
    let mut nodes = Vec::with_capacity(alloc, count)?;
    for i in 0..count {
        match field_node(arena, node, depth, i) {
            Some(field) => nodes.push(field)?,
            None => return Ok(nodes),
        }
    }
    Ok(nodes)
}

// The node of field i.
fn field_node<H: PairHash>(arena: &Arena<H>, node: NodeId, depth: u32, i: usize) -> Option<NodeId>
    requires node { IsNodeOf arena.now node }
    requires depth { depth ≤ 126 }
    ensures { IsFieldAt arena.now node depth i result }
{
    let index = Gindex::new((1 << depth) + i as u128)?;
    arena.down(node, index)
}

/// For each number of a field its node, where there is one. Fails for want of memory alone.
pub fn nodes_taken(
    alloc: Global,
    nodes: &[NodeId],
    taken: &[Option<usize>],
) -> Result<Vec<Option<NodeId>>, AllocError>
    ensures { IfOk result (λ given. given.items ≡ map (pick nodes.now) taken.now) }
{
    let mut given = Vec::with_capacity(alloc, taken.len())?;
    for number in taken {
        given.push(picked(nodes, *number))?;
    }
    Ok(given)
}

// The node of this number.
fn picked(nodes: &[NodeId], number: Option<usize>) -> Option<NodeId>
    ensures { result ≡ pick nodes.now number }
{
    match number {
        Some(k) => nodes.get(k).copied(),
        None => None,
    }
}
