// The calls that judge proofs.
ghost use Rattle.ssz_said.specs.Branch.{IsBranchVerdict};
ghost use Rattle.ssz_said.specs.Entries.{IsEntriesVerdict};
ghost use Rattle.ssz_said.specs.Verdict.{IsVerdict};

use ssz_said::{SszEntry, SszIndex, judge, judge_branch, judge_entries};
use std::alloc::Global;

/// Whether the proof that a text says leads to a root.
#[unsafe(no_mangle)]
pub extern "C" fn ssz_verify(alloc: Global, root: &[u8; 32], proof: &[u8]) -> u32
    ensures { IsVerdict result root.now proof.now }
{
    judge(alloc, root, proof).status()
}

/// Whether the branch, chunks of 32 bytes from below and one for each level of the index, leads
/// from the leaf there to the root.
#[unsafe(no_mangle)]
pub extern "C" fn ssz_verify_branch(
    root: &[u8; 32],
    leaf: &[u8; 32],
    index: &SszIndex,
    branch: &[u8],
) -> u32
    ensures { IsBranchVerdict result root.now leaf.now index.now branch.now }
{
    judge_branch(root, leaf, *index, branch).status()
}

/// Whether the proof of these leaves and nodes leads to the root.
#[unsafe(no_mangle)]
pub extern "C" fn ssz_verify_all(
    alloc: Global,
    root: &[u8; 32],
    leaves: &[SszEntry],
    nodes: &[SszEntry],
) -> u32
    ensures { IsEntriesVerdict result root.now leaves.now nodes.now }
{
    judge_entries(alloc, root, leaves, nodes).status()
}
