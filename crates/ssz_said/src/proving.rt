// The chunks from which the root of a version can be calculated.
ghost use Rattle.std.specs.Prelude.{◌≡◌, [], ◌∷◌, ◌++◌, Ok, IfOk};
ghost use Rattle.std.specs.Result.{result_map_both};
ghost use Rattle.ssz_said.specs.Entries.{IsProofReply, all_shown};
ghost use Rattle.ssz_said.specs.Outcome.{IsUnlessMemory};
ghost use Rattle.ssz_said.specs.Proving.{IsBranchIn, chunks_in, prove_said};
ghost use Rattle.ssz_said.specs.Statements.{HasShortLiteral};

use super::entries::{SszEntry, shown};
use super::fault::SszFault;
use super::status;
use super::texts::{index_of, name_of};
use ssz_line::Index;
use ssz_proof::{Entry, Proof, ProofFault, read_proof};
use ssz_script::{Indices, Reply, Statement};
use std::alloc::{AllocError, Global};

// A list of one index.
fn alone(alloc: Global, index: Index) -> Result<Indices, AllocError>
    ensures { IfOk result (λ indices. indices ≡ index ∷ []) }
{
    let mut indices = Vec::new(alloc);
    indices.push(index)?;
    Ok(Indices::new(indices))
}

/// `prove V I`, of one index.
pub fn prove(alloc: Global, v: &[u8], asked: &[u8]) -> Result<Statement, SszFault>
    ensures said { IsUnlessMemory result (prove_said v.now asked.now) }
    ensures short { IfOk result HasShortLiteral }
{
    let v = name_of(alloc, v)?;
    let index = index_of(alloc, asked)?;
    Ok(Statement::Prove(v, alone(alloc, index)?))
}

// The chunks of entries.
fn chunks_of(alloc: Global, entries: &[Entry]) -> Result<Vec<u8>, AllocError>
    ensures { IfOk result (λ bytes. bytes.items ≡ chunks_in entries.now) }
{
    let mut bytes = Vec::new(alloc);
    for entry in entries {
        bytes.extend_from_slice(&entry.chunk.0)?;
    }
    Ok(bytes)
}

// The chunks of a proof.
fn all_chunks(alloc: Global, proof: &Proof) -> Result<Vec<u8>, AllocError>
    ensures { IfOk result (λ bytes.
        bytes.items ≡ chunks_in proof.now.leaves ++ chunks_in proof.now.nodes) }
{
    let mut bytes = chunks_of(alloc, proof.leaves())?;
    let nodes = chunks_of(alloc, proof.nodes())?;
    bytes.extend_from_slice(nodes.as_slice())?;
    Ok(bytes)
}

// The chunks of the proof that a text says.
fn read_chunks(alloc: Global, text: &[u8]) -> Result<Vec<u8>, SszFault>
    ensures { IsBranchIn (Ok (Reply.Proof text.now))
        (result_map_both (λ bytes. bytes.items) (λ fault. fault) result) }
{
    let proof = match read_proof(alloc, text) {
        Ok(proof) => proof,
        Err(ProofFault::BadProof) => return Err(SszFault::of(status::BAD_PROOF)),
        Err(ProofFault::Memory) => return Err(SszFault::of(status::NO_MEMORY)),
    };
    Ok(all_chunks(alloc, &proof)?)
}

/// The chunks of the proof that is answered.
pub fn branch_of(alloc: Global, answer: Result<Reply, SszFault>) -> Result<Vec<u8>, SszFault>
    ensures { IsBranchIn answer (result_map_both (λ bytes. bytes.items) (λ fault. fault) result) }
{
    match answer? {
        Reply::Proof(text) => read_chunks(alloc, text.as_slice()),
        _ => Err(SszFault::of(status::REFUSED)),
    }
}

// The proof that a text says.
fn read_text(alloc: Global, text: &[u8]) -> Result<Proof, SszFault>
    ensures { IsProofReply (Ok (Reply.Proof text.now)) result }
{
    match read_proof(alloc, text) {
        Ok(proof) => Ok(proof),
        Err(ProofFault::BadProof) => Err(SszFault::of(status::BAD_PROOF)),
        Err(ProofFault::Memory) => Err(SszFault::of(status::NO_MEMORY)),
    }
}

/// The proof that is answered.
pub fn proof_of(alloc: Global, answer: Result<Reply, SszFault>) -> Result<Proof, SszFault>
    ensures { IsProofReply answer result }
{
    match answer? {
        Reply::Proof(text) => read_text(alloc, text.as_slice()),
        _ => Err(SszFault::of(status::REFUSED)),
    }
}

/// The leaves of a proof as C has them, and then its nodes.
pub fn all_shown(alloc: Global, proof: &Proof) -> Result<Vec<SszEntry>, AllocError>
    ensures { IfOk result (λ entries. entries.items ≡ all_shown proof.now) }
{
    let mut entries = shown(alloc, proof.leaves())?;
    let nodes = shown(alloc, proof.nodes())?;
    entries.extend_from_slice(nodes.as_slice())?;
    Ok(entries)
}
