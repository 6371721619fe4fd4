ghost use Rattle.std.specs.Prelude.{◌≡◌, ◌↔◌, ◌++◌, ℕ, List, [], ◌∷◌, IfOk, OnOk, IfErr, IsTrue, false};
ghost use Rattle.ssz_gindex.specs.Helpers.{helpers, AreFlat, AreGreatestNested};
ghost use Rattle.ssz_gindex.specs.Faults.{IsHelperFault, AreHelpers};
ghost use Rattle.ssz_gindex.specs.Walk.{IsUpper, WalksHelpers};

use super::fault::HelperFault;
use super::gindex::Gindex;
use super::walk::{Step, Walk};
use std::alloc::{AllocError, Global};

/// The helper indices of the indices, in descending order: the nodes from whose chunks, with those
/// at the indices, the root is calculated (merkle-proofs.md, Merkle multiproofs:
/// get_helper_indices). An index may stand more than once.
///
/// Nested where an index is an ancestor of another: it names the greatest such index, and the
/// greatest index below that one. Only want of memory, Memory, comes in place of either answer.
pub fn helper_indices(alloc: Global, indices: &[Gindex]) -> Result<Vec<Gindex>, HelperFault>
    ensures helpers { IfOk result (λ list. list.items ≡ helpers indices.now) }
    ensures flat { OnOk result (AreFlat indices.now) }
    ensures fault { IfErr result (IsHelperFault indices.now) }
{
    let mut walk = Walk::start(alloc, indices)?;
    let mut found = Vec::new(alloc);
    loop {
        match walk.step()? {
            Step::Helper(helper) => found.push(helper)?,
            Step::Root => return Ok(found),
            Step::Nested(upper) => {
                return Err(HelperFault::Nested(upper, greatest_below(indices, upper)));
            }
        }
    }
}

/// Whether no index is an ancestor of another, and the nodes are the helper indices of the indices
/// in descending order. An error is want of memory.
pub fn are_helpers(alloc: Global, indices: &[Gindex], nodes: &[Gindex]) -> Result<bool, AllocError>
    ensures { IfOk result (λ answer. IsTrue answer ↔ AreHelpers indices.now nodes.now) }
{
    // The helpers are not gathered, so that a list of too many nodes costs no memory.
    let mut walk = Walk::start(alloc, indices)?;
    for node in nodes {
        if !next_is(&mut walk, *node)? {
            return Ok(false);
        }
    }
    is_at_root(&mut walk)
}

// Whether the walk comes to this helper next.
fn next_is(walk: &mut Walk, node: Gindex) -> Result<bool, AllocError>
    ensures same { IfOk result (λ same. IsTrue same → (indices found : List ℕ)
        → WalksHelpers indices walk.old.indices.items walk.old.parents.items found
        → WalksHelpers indices walk.new.indices.items walk.new.parents.items
        (found ++ node ∷ [])) }
    ensures other { IfOk result (λ same. same ≡ false → (indices found : List ℕ)
        → WalksHelpers indices walk.old.indices.items walk.old.parents.items found
        → (rest : List ℕ) → AreHelpers indices (found ++ node ∷ rest) → ⊥) }
{
    match walk.step()? {
        Step::Helper(helper) => Ok(helper == node),
        Step::Root | Step::Nested(_) => Ok(false),
    }
}

// Whether the walk has no more helper, and comes to no index that is an ancestor of another.
fn is_at_root(walk: &mut Walk) -> Result<bool, AllocError>
    ensures { IfOk result (λ answer. (indices found : List ℕ)
        → WalksHelpers indices walk.old.indices.items walk.old.parents.items found
        → (IsTrue answer ↔ AreHelpers indices found)) }
{
    match walk.step()? {
        Step::Root => Ok(true),
        Step::Helper(_) | Step::Nested(_) => Ok(false),
    }
}

// The greatest index below another one that is an ancestor of some.
fn greatest_below(indices: &[Gindex], upper: Gindex) -> Gindex
    requires { IsUpper indices.now upper }
    ensures { AreGreatestNested indices.now upper result }
{
    let mut lowest = upper;
    for index in indices {
        if index.is_within(upper) {
            lowest = lowest.max(*index);
        }
    }
    lowest
}
