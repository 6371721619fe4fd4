// Whether a branch leads from a leaf to a root.
ghost use Rattle.std.specs.Prelude.{◌≡◌};
ghost use Rattle.ssz_said.specs.Branch.{JudgesBranch, top_of};

use super::entries::{SszIndex, whole};
use super::verdict::Verdict;
use ssz_chunk::{Chunk, PairHash, ShaPair};
use ssz_gindex::Gindex;
use ssz_merkle::chunk_at;

// The chunk at the top of a branch.
fn top_of(leaf: &[u8; 32], index: Gindex, branch: &[u8]) -> Chunk
    ensures { result.0 ≡ top_of leaf.now index branch.now }
{
    let mut hasher = ShaPair::new();
    let mut value = Chunk(*leaf);
    let mut place = index.get();
    for level in 0..index.levels() as usize {
        let beside = chunk_at(branch, level);
        value = if place % 2 == 1 {
            hasher.pair(&beside, &value)
        } else {
            hasher.pair(&value, &beside)
        };
        place /= 2;
    }
    value
}

/// Whether the branch, one chunk for each level of the index, leads from the leaf to the root.
pub fn judge_branch(root: &[u8; 32], leaf: &[u8; 32], index: SszIndex, branch: &[u8]) -> Verdict
    ensures { JudgesBranch result root.now leaf.now index branch.now }
{
    let Some(index) = Gindex::new(whole(index)) else {
        return Verdict::BadProof;
    };
    if branch.len() != 32 * index.levels() as usize {
        return Verdict::BadProof;
    }
    if top_of(leaf, index, branch) == Chunk(*root) {
        Verdict::Holds
    } else {
        Verdict::Unlike
    }
}
