// The nodes on the paths to some indices, from the greatest to the root, by which their helpers
// are found in order.
ghost use Rattle.std.specs.Prelude.{ℕ, ◌≡◌, ◌==◌, ◌<◌, List, [], None, drop, max, true, if◌then◌else◌, IfOk, IfSome};
ghost use Rattle.ssz_gindex.specs.Laws.{IsDescending, contains};
ghost use Rattle.ssz_gindex.specs.Walk.{WalksHelpers, WalkReaches, GoesUp, first, height};

use super::gindex::Gindex;
use std::alloc::{AllocError, Global};
use std::collections::VecDeque;

/// A walk up the paths to some indices.
///
/// A parent is made of the greatest node that waits, so that parents come in descending order by
/// themselves, and the next node stands at one of two fronts.
#[derive(Drop)]
pub struct Walk {
    // The indices that are still to be met, in descending order.
    pub indices: VecDeque<Gindex>,
    // The parents of what was met that are still to be met, in descending order.
    pub parents: VecDeque<Gindex>,
}

/// What a walk comes to.
#[derive(Drop)]
pub enum Step {
    /// The next helper.
    Helper(Gindex),
    /// The root: there is no more helper.
    Root,
    /// One of the indices, below which another one lies.
    Nested(Gindex),
}

impl Walk {
    /// The walk up from these indices.
    pub fn start(alloc: Global, indices: &[Gindex]) -> Result<Walk, AllocError>
        ensures { IfOk result (λ walk.
            WalksHelpers indices.now walk.indices.items walk.parents.items []) }
    {
        are_positive(indices);
        Ok(Walk {
            indices: descending(alloc, indices)?,
            parents: VecDeque::new(alloc),
        })
    }

    /// Goes up to the next helper, in descending order.
    pub fn step(&mut self) -> Result<Step, AllocError>
        ensures comes { IfOk result (λ step. (indices found : List ℕ)
            → WalksHelpers indices self.old.indices.items self.old.parents.items found
            → WalkReaches indices found self.new.indices.items self.new.parents.items step) }
        ensures up { IfOk result (GoesUp (height self.old.indices.items self.old.parents.items)
            (height self.new.indices.items self.new.parents.items)) }
    {
        while let Some(node) = self.greatest() {
            let index = take(&mut self.indices, node);
            let parent = take(&mut self.parents, node);
            if index & parent {
                return Ok(Step::Nested(node));
            }
            if node.get() == 1 {
                return Ok(Step::Root);
            }
            let sibling = node.sibling();
            let sibling_index = take(&mut self.indices, sibling);
            let sibling_parent = take(&mut self.parents, sibling);
            if sibling_index & sibling_parent {
                return Ok(Step::Nested(sibling));
            }
            self.parents.push_back(node.parent())?;
            if !(sibling_index | sibling_parent) {
                return Ok(Step::Helper(sibling));
            }
        }
        Ok(Step::Root)
    }

    // The greatest node that waits.
    fn greatest(&self) -> Option<Gindex>
        ensures some { IfSome result (λ node. node
            ≡ max (first self.now.indices.items) (first self.now.parents.items)) }
        ensures positive { IfSome result (λ node. 0 < node) }
        ensures none { result ≡ None
            → max (first self.now.indices.items) (first self.now.parents.items) ≡ 0 }
    {
        Gindex::new(first(&self.indices).max(first(&self.parents)))
    }
}

// The number of the index at the front, 0 where there is none.
fn first(end: &VecDeque<Gindex>) -> u128
    ensures { result ≡ first end.now.items }
{
    match end.front() {
        Some(index) => index.get(),
        None => 0,
    }
}

// Takes a node out, if it stands at the front.
fn take(end: &mut VecDeque<Gindex>, node: Gindex) -> bool
    ensures taken { result ≡ (first end.old.items == node) }
    ensures rest { end.new.items ≡ (if result then drop 1 end.old.items else end.old.items) }
{
    if first(end) != node.get() {
        return false;
    }
    let _node = end.pop_front();
    true
}

// By their numbers it is known that none is 0.
fn are_positive(indices: &[Gindex])
    ensures { (k : ℕ) → contains indices.now k ≡ true → 0 < k }
{
    for index in indices {
        let _number = index.get();
    }
}

// The indices in descending order, each once.
fn descending(alloc: Global, indices: &[Gindex]) -> Result<VecDeque<Gindex>, AllocError>
    ensures falls { IfOk result (λ list. IsDescending list.items) }
    ensures same { IfOk result (λ list. (k : ℕ)
        → contains list.items k ≡ contains indices.now k) }
{
    let mut list = indices.to_vec(alloc)?;
    list.sort_unstable();
    list.dedup();
    list.reverse();
    Ok(VecDeque::from(list))
}
