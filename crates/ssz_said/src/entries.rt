// Proofs as arrays: chunks with their generalized indices.
ghost use Rattle.std.specs.Prelude.{◌≡◌, ◌++◌, [], None, Some, Err, IfOk, map};
ghost use Rattle.ssz_proof.specs.declared.fault.ProofFault.TheVariants.{BadProof};
ghost use Rattle.ssz_said.specs.Entries.{EntriesSay, EntriesSayNone, JudgesEntries, entry_shown, index_parts, index_whole, numbers_said, prove_all_said, said_behind};
ghost use Rattle.ssz_said.specs.Outcome.{IsUnlessMemory};
ghost use Rattle.ssz_said.specs.Statements.{HasShortLiteral};

use super::fault::SszFault;
use super::status;
use super::texts::name_of;
use super::verdict::Verdict;
use ssz_chunk::{Chunk, ShaPair};
use ssz_gindex::Gindex;
use ssz_line::Index;
use ssz_proof::{Entry, Proof, ProofFault, verify};
use ssz_script::{Indices, Statement};
use std::alloc::{AllocError, Global};

/// A generalized index in two halves.
#[repr(C)]
#[derive(Clone, Copy, Debug, PartialEq, Eq)]
pub struct SszIndex {
    /// The lower 64 bits.
    pub low: u64,
    /// The upper 64 bits.
    pub high: u64,
}

/// A chunk with its generalized index.
#[repr(C)]
#[derive(Clone, Copy, Debug, PartialEq, Eq)]
pub struct SszEntry {
    /// Where it stands in the tree.
    pub index: SszIndex,
    /// Its 32 bytes.
    pub chunk: [u8; 32],
}

// The numbers that fit one half.
const HALF: u128 = 1 << 64;

/// The halves of a number.
pub fn halves(number: u128) -> SszIndex
    ensures { result ≡ index_parts number }
{
    SszIndex {
        low: (number % HALF) as u64,
        high: (number / HALF) as u64,
    }
}

/// The number of two halves.
pub fn whole(index: SszIndex) -> u128
    ensures { result ≡ index_whole index }
{
    u128::from(index.low) + HALF * u128::from(index.high)
}

/// The chunks of a proof as C has them.
pub fn shown(alloc: Global, entries: &[Entry]) -> Result<Vec<SszEntry>, AllocError>
    ensures { IfOk result (λ shown. shown.items ≡ map entry_shown entries.now) }
{
    let mut shown = Vec::new(alloc);
    for entry in entries {
        let index = halves(entry.index.get());
        let chunk = entry.chunk.0;
        shown.push(SszEntry { index, chunk })?;
    }
    Ok(shown)
}

// The chunks of an array, or BadProof where an index is 0.
fn read_entries(alloc: Global, entries: &[SszEntry]) -> Result<Vec<Entry>, ProofFault>
    ensures ok { IfOk result (λ known. said_behind [] entries.now ≡ Some known.items) }
    ensures bad { result ≡ Err BadProof → said_behind [] entries.now ≡ None }
{
    let mut known = Vec::new(alloc);
    for entry in entries {
        let Some(index) = Gindex::new(whole(entry.index)) else {
            return Err(ProofFault::BadProof);
        };
        let chunk = Chunk(entry.chunk);
        known.push(Entry { index, chunk })?;
    }
    Ok(known)
}

// The proof of two arrays.
fn read_arrays(alloc: Global, leaves: &[SszEntry], nodes: &[SszEntry]) -> Result<Proof, ProofFault>
    ensures ok { IfOk result (EntriesSay leaves.now nodes.now) }
    ensures bad { result ≡ Err BadProof → EntriesSayNone leaves.now nodes.now }
{
    let leaves = read_entries(alloc, leaves)?;
    let nodes = read_entries(alloc, nodes)?;
    Proof::new(alloc, leaves.as_slice(), nodes.as_slice())
}

/// Whether the proof of two arrays leads to the root.
pub fn judge_entries(
    alloc: Global,
    root: &[u8; 32],
    leaves: &[SszEntry],
    nodes: &[SszEntry],
) -> Verdict
    ensures { JudgesEntries result root.now leaves.now nodes.now }
{
    let proof = match read_arrays(alloc, leaves, nodes) {
        Ok(proof) => proof,
        Err(ProofFault::BadProof) => return Verdict::BadProof,
        Err(ProofFault::Memory) => return Verdict::Memory,
    };
    let mut hasher = ShaPair::new();
    if verify(&proof, &Chunk(*root), &mut hasher) {
        Verdict::Holds
    } else {
        Verdict::Unlike
    }
}

// Numbers as indices of a statement.
fn numbers(alloc: Global, indices: &[SszIndex]) -> Result<Vec<Index>, AllocError>
    ensures { IfOk result (λ numbers. numbers.items ≡ numbers_said indices.now) }
{
    let mut numbers = Vec::new(alloc);
    for index in indices {
        numbers.push(Index::Number(whole(*index)))?;
    }
    Ok(numbers)
}

/// `prove V I ..`, of one index or more, each a number.
pub fn prove_all(alloc: Global, v: &[u8], indices: &[SszIndex]) -> Result<Statement, SszFault>
    ensures said { IsUnlessMemory result (prove_all_said v.now indices.now) }
    ensures short { IfOk result HasShortLiteral }
{
    if indices.len() == 0 {
        return Err(SszFault::of(status::SYNTAX));
    }
    let v = name_of(alloc, v)?;
    Ok(Statement::Prove(v, Indices::new(numbers(alloc, indices)?)))
}
