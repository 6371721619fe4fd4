ghost use Rattle.std.specs.Prelude.{◌≡◌, ◌+◌, ◌*◌, ◌≤◌, sum_by};
ghost use Rattle.ssz_chunk.specs.Index.{levels};
ghost use Rattle.ssz_proof.specs.Calculation.{indices_of};
ghost use Rattle.ssz_clash.specs.Clashes.{ProofsComeTo};
ghost use Rattle.ssz_clash.specs.Compared.{compared};

use crate::fault::ClashFault;
use crate::finding::Clash;
use crate::places::{same_entries, same_places};
use crate::walk::walk;
use ssz_chunk::PairHash;
use ssz_gindex::Gindex;
use ssz_proof::Proof;

/// Where two proofs of the same places lead to the same root from other leaves (merkle-proofs.md,
/// Merkle multiproofs): a place above a leaf at which two unlike pairs of chunks give the same, the
/// first in preorder, with both pairs. Same exactly where all leaves agree, whatever the other
/// nodes.
///
/// OtherIndices exactly where the sets of the leaves' indices differ; then OtherRoot exactly where
/// the roots differ that the proofs lead to. It takes no memory, and hashes at most twice as many
/// pairs as the leaves have levels together.
pub fn clash<H: PairHash>(
    first: &Proof,
    second: &Proof,
    hasher: &mut H,
) -> Result<Clash, ClashFault>
    ensures exact { result ≡ compared H.pair_of first.now second.now }
    ensures comes { ProofsComeTo H.pair_of first.now second.now result }
    ensures rises { H.pairs hasher.old ≤ H.pairs hasher.new }
    ensures pairs { H.pairs hasher.new
        ≤ H.pairs hasher.old + 2 * sum_by levels (indices_of first.now.leaves) }
{
    if !same_places(first.leaves(), second.leaves()) {
        return Err(ClashFault::OtherIndices);
    }
    let walked = walk(first, second, Gindex::root(), hasher);
    if walked.first != walked.second {
        return Err(ClashFault::OtherRoot(walked.first, walked.second));
    }
    if same_entries(first.leaves(), second.leaves()) {
        return Ok(Clash::Same);
    }
    match walked.clash {
        Some(pairs) => Ok(Clash::Unlike {
            index: pairs.index,
            first: pairs.first,
            second: pairs.second,
        }),
        None => unreachable!(),
    }
}
