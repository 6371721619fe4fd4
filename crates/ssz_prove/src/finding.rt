// The nodes at some indices and at their helper indices.
ghost use Rattle.std.specs.Prelude.{◌≡◌, ◌≢◌, ◌^◌, ◌<◌, ◌≤◌, ◌↔◌, ◌++◌, ◌∷◌, ◌+◌, ◌*◌, [], false, length, reverse, slice_get, Some, vec_len, vec_capacity, IfOk, IfErr, IfSome, IfNone, IsTrue, OnOk};
ghost use Rattle.std.specs.List.{AllByRecursion};
ghost use Rattle.ssz_arena.specs.Content.{IsNodeOf, tree_of};
ghost use Rattle.ssz_gindex.specs.Faults.{IsHelperFault};
ghost use Rattle.ssz_gindex.specs.Helpers.{AreFlat, helpers};
ghost use Rattle.ssz_proof.specs.Multiproof.{AscendFrom};
ghost use Rattle.ssz_prove.specs.Faults.{AreIn};
ghost use Rattle.ssz_prove.specs.Found.{AreFound, HasFound, IsIndex, places};
ghost use Rattle.ssz_prove.specs.Proved.{SameNumbers};

use ssz_arena::{Arena, NodeId, NodeRef};
use ssz_chunk::PairHash;
use ssz_gindex::{Gindex, HelperFault, helper_indices};
use std::alloc::{AllocError, Global};

/// A place of a tree, and the node there.
#[derive(Clone, Copy)]
pub struct Spot {
    pub index: Gindex,
    pub node: NodeId,
}

/// What a walk down a tree has come by.
#[derive(Drop)]
pub struct Found {
    // All its places, in ascending order: the children of a place come last, so that a place above
    // all others is above these, too. Empty after the walk.
    pub spots: Vec<Spot>,
    // Those of the indices.
    pub leaves: Vec<Spot>,
    // Those of their helper indices.
    pub nodes: Vec<Spot>,
}

impl Found {
    // Nothing yet, with room for the places of so many indices and helpers.
    fn start(alloc: Global, leaves: usize, nodes: usize) -> Result<Found, AllocError>
        ensures spots { IfOk result (λ found. found.spots.items ≡ []) }
        ensures leaves { IfOk result (λ found. found.leaves.items ≡ []) }
        ensures nodes { IfOk result (λ found. found.nodes.items ≡ []) }
    {
        let all = leaves.saturating_add(nodes);
        Ok(Found {
            spots: Vec::with_capacity(alloc, all.saturating_mul(2))?,
            leaves: Vec::with_capacity(alloc, leaves)?,
            nodes: Vec::with_capacity(alloc, nodes)?,
        })
    }
}

/// The nodes of a node's tree at the indices, in ascending order, and at their helper indices, in
/// descending order. None where the tree has no node at one of the indices.
pub fn find<H: PairHash>(
    arena: &Arena<H>,
    top: NodeId,
    indices: &[Gindex],
) -> Result<Option<Found>, HelperFault>
    requires some { indices.now ≢ [] }
    requires node { IsNodeOf arena.now top }
    ensures found { IfOk result (λ answer. IfSome answer (AreFound arena.now top)) }
    ensures same { IfOk result (λ answer. IfSome answer (λ found.
        SameNumbers (places found.leaves.items) indices.now)) }
    ensures none { IfOk result (λ answer. IfNone answer
        (AreIn (tree_of arena.now top) indices.now → ⊥)) }
    ensures fault { IfErr result (IsHelperFault indices.now) }
{
    let alloc = arena.allocator();
    let asked = ascending(alloc, indices)?;
    let mut helpers = helper_indices(alloc, &asked)?;
    helpers.reverse();
    let mut found = Found::start(alloc, asked.len(), helpers.len())?;
    if walk(arena, top, &asked, &helpers, &mut found)? {
        found.spots = Vec::new(alloc);
        found.nodes.reverse();
        return Ok(Some(found));
    }
    Ok(None)
}

// The indices in ascending order, each once.
fn ascending(alloc: Global, indices: &[Gindex]) -> Result<Vec<Gindex>, AllocError>
    ensures rise { IfOk result (λ list. AscendFrom 0 list.items) }
    ensures all { IfOk result (λ list. AllByRecursion IsIndex list.items) }
    ensures same { IfOk result (λ list. SameNumbers list.items indices.now) }
{
    let mut list = indices.to_vec(alloc)?;
    list.sort_unstable();
    list.dedup();
    are_indices(&list);
    Ok(list)
}

// By their numbers it is known that none is 0, and that all fit.
fn are_indices(indices: &[Gindex])
    ensures { AllByRecursion IsIndex indices.now }
{
    for index in indices {
        let _number = index.get();
    }
}

// Goes down from the top to the indices and their helpers. These two lists ascend as the places do
// by themselves, so that each place is met once and compared with the next of each list alone.
// False where the tree has no node at one of the indices.
fn walk<H: PairHash>(
    arena: &Arena<H>,
    top: NodeId,
    asked: &[Gindex],
    beside: &[Gindex],
    found: &mut Found,
) -> Result<bool, AllocError>
    requires node { IsNodeOf arena.now top }
    requires some { asked.now ≢ [] }
    requires rise { AscendFrom 0 asked.now }
    requires all { AllByRecursion IsIndex asked.now }
    requires flat { AreFlat asked.now }
    requires beside { beside.now ≡ reverse (helpers asked.now) }
    requires spots { found.old.spots.items ≡ [] }
    requires leaves { found.old.leaves.items ≡ [] }
    requires nodes { found.old.nodes.items ≡ [] }
    ensures found { IfOk result (λ all. IsTrue all
        → HasFound arena.now top asked.now beside.now found.new) }
    ensures none { IfOk result (λ all. all ≡ false
        → AreIn (tree_of arena.now top) asked.now → ⊥) }
{
    found.spots.push(Spot {
        index: Gindex::root(),
        node: top,
    })?;
    let mut met = 0;
    'places: while met < found.spots.len() {
        let spot = &found.spots[met];
        let index = spot.index;
        let node = spot.node;
        met += 1;
        if is_next(asked, found.leaves.len(), index) {
            found.leaves.push(Spot { index, node })?;
        } else if is_next(beside, found.nodes.len(), index) {
            found.nodes.push(Spot { index, node })?;
        } else {
            let NodeRef::Pair(left, right) = arena.node(node) else {
                return Ok(false);
            };
            push_children(&mut found.spots, index, left, right)?;
        }
    }
    Ok(true)
}

// Whether the index is the next one, where so many of the list were met.
fn is_next(list: &[Gindex], met: usize, index: Gindex) -> bool
    ensures { IsTrue result ↔ (slice_get list.now met ≡ Some index) }
{
    match list.get(met) {
        Some(next) => next.get() == index.get(),
        None => false,
    }
}

// The children of the place, behind the other places.
fn push_children(
    spots: &mut Vec<Spot>,
    index: Gindex,
    left: NodeId,
    right: NodeId,
) -> Result<(), AllocError>
    requires some { 0 < index }
    requires small { index < 2 ^ 127 }
    ensures { OnOk result (spots.new.items ≡ (spots.old.items
        ++ record { index = 2 * index; node = left } ∷ [])
        ++ record { index = 2 * index + 1; node = right } ∷ []) }
{
    let beside = index.right();
    spots.push(Spot {
        index: beside.sibling(),
        node: left,
    })?;
    spots.push(Spot {
        index: beside,
        node: right,
    })?;
    Ok(())
}
