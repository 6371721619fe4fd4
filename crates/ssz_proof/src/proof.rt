ghost use Rattle.std.specs.Prelude.{◌≡◌, ◌↔◌, ◌^◌, ◌<◌, IfOk, IsTrue, option_map};
ghost use Rattle.std.specs.List.{AllByRecursion};
ghost use Rattle.ssz_proof.specs.Calculation.{indices_of, chunk_at};
ghost use Rattle.ssz_proof.specs.Multiproof.{AreComplete, AscendFrom, known_of};
ghost use Rattle.ssz_proof.specs.Changes.{with_chunk, proof_with};
ghost use Rattle.ssz_proof.specs.Descent.{IsAscending, IsDescending};
ghost use Rattle.std.specs.List.Sorted.{IsPermutation, IsNonDecreasingBy};

use crate::calculation::chunk_of;
use crate::entry::Entry;
use crate::fault::ProofFault;
use crate::places::{ascending_place, descending_place};
use ssz_chunk::Chunk;
use ssz_gindex::{Gindex, are_helpers};
use std::alloc::{AllocError, Global};
use std::marker::Model;

/// A Merkle multiproof: leaves, of which there is one, none at one index with another or above it,
/// and nodes at their helper indices (get_helper_indices). From them a root can be calculated.
#[derive(Debug, Drop)]
pub struct Proof {
    // in ascending order of index
    leaves: Vec<Entry>,
    // in descending order of index
    nodes: Vec<Entry>,
}

// Its two lists.
impl Model for Proof {
    ghost use Rattle.ssz_proof.specs.Multiproof.{Multiproof, IsOrdered};

    ghost Value = { Multiproof };

    ghost view = { λ a. record { leaves = a.leaves.items; nodes = a.nodes.items } };

    ghost invariant = { λ a.
        IsOrdered (record { leaves = a.leaves.items; nodes = a.nodes.items }) };
}

impl Proof {
    ghost use Rattle.ssz_proof.specs.Multiproof.{IsMultiproof, IsOrdered, IsProofOf};
    ghost use Rattle.ssz_proof.specs.declared.fault.ProofFault.TheVariants.{BadProof};

    /// The proof of these leaves, in any order, and these nodes, in descending order of index.
    ///
    /// BadProof where there is no leaf, two leaves are at one index or one is above another, or the
    /// nodes are not at the helper indices of the leaves.
    pub fn new(alloc: Global, leaves: &[Entry], nodes: &[Entry]) -> Result<Proof, ProofFault>
        ensures ok { IfOk result
            (IsProofOf (record { leaves = leaves.now; nodes = nodes.now })) }
        ensures bad { result ≡ Err BadProof
            → ¬ IsMultiproof (record { leaves = leaves.now; nodes = nodes.now }) }
    {
        let leaves = Vec::from_slice(alloc, leaves)?;
        let nodes = Vec::from_slice(alloc, nodes)?;
        Proof::of_lists(alloc, leaves, nodes)
    }

    /// The proof of lists that are known to be one, with the leaves in ascending order of index.
    /// It tests nothing, and takes the lists as they are.
    pub fn of_ordered(leaves: Vec<Entry>, nodes: Vec<Entry>) -> Proof
        requires { IsOrdered (record { leaves = leaves.items; nodes = nodes.items }) }
        ensures { result ≡ record { leaves = leaves.items; nodes = nodes.items } }
    {
        Proof { leaves, nodes }
    }

    // The same as `new`, of lists that it keeps.
    pub(crate) fn of_lists(
        alloc: Global,
        mut leaves: Vec<Entry>,
        nodes: Vec<Entry>,
    ) -> Result<Proof, ProofFault>
        ensures ok { IfOk result
            (IsProofOf (record { leaves = leaves.items; nodes = nodes.items })) }
        ensures bad { result ≡ Err BadProof
            → ¬ IsMultiproof (record { leaves = leaves.items; nodes = nodes.items }) }
    {
        sort(&mut leaves);
        if are_complete(alloc, &leaves, &nodes)? {
            Ok(Proof { leaves, nodes })
        } else {
            Err(ProofFault::BadProof)
        }
    }

    /// A proof with the same lists, in memory of its own.
    pub fn copy(&self, alloc: Global) -> Result<Proof, AllocError>
        ensures { IfOk result (λ proof. proof ≡ self.now) }
    {
        let leaves = Vec::from_slice(alloc, &self.leaves)?;
        let nodes = Vec::from_slice(alloc, &self.nodes)?;
        Ok(Proof { leaves, nodes })
    }

    /// The chunk at the index, of a leaf or a node. None where it is of neither.
    pub fn chunk(&self, index: Gindex) -> Option<Chunk>
        ensures { option_map (λ chunk. chunk.0) result ≡ chunk_at (known_of self.now) index }
    {
        chunk_of(self.leaves(), self.nodes(), index.get())
    }

    /// Puts this chunk at the index, where a leaf or a node has one, and else changes nothing. The
    /// lists keep their indices, so that they are a proof as before.
    pub fn put(&mut self, index: Gindex, chunk: Chunk)
        ensures { self.new ≡ proof_with self.old index chunk }
    {
        put_ascending(&mut self.leaves, index, chunk);
        put_descending(&mut self.nodes, index, chunk);
    }

    /// The chunks that are proved, in ascending order of index.
    pub fn leaves(&self) -> &[Entry]
        ensures value { result.now ≡ self.now.leaves }
        ensures ordered { IsOrdered self.now }
    {
        &self.leaves
    }

    /// The chunks at their helper indices, in descending order of index.
    pub fn nodes(&self) -> &[Entry]
        ensures value { result.now ≡ self.now.nodes }
        ensures ordered { IsOrdered self.now }
    {
        &self.nodes
    }
}

// Puts the chunk into the entry at the index, of entries in ascending order.
fn put_ascending(entries: &mut Vec<Entry>, index: Gindex, chunk: Chunk)
    requires { IsAscending (indices_of entries.old.items) }
    ensures { entries.new.items ≡ with_chunk entries.old.items index chunk }
{
    if let Some(place) = ascending_place(entries, index.get()) {
        entries[place].chunk = chunk;
    }
}

// Puts the chunk into the entry at the index, of entries in descending order.
fn put_descending(entries: &mut Vec<Entry>, index: Gindex, chunk: Chunk)
    requires { IsDescending (indices_of entries.old.items) }
    ensures { entries.new.items ≡ with_chunk entries.old.items index chunk }
{
    if let Some(place) = descending_place(entries, index.get()) {
        entries[place].chunk = chunk;
    }
}

// Puts entries in ascending order of index.
fn sort(entries: &mut Vec<Entry>)
    ensures same { IsPermutation entries.old.items entries.new.items }
    ensures sorted { IsNonDecreasingBy (λ entry. entry.index) entries.new.items }
{
    entries.sort_unstable_by_key(|entry| entry.index.get());
}

// Whether sorted leaves are some, none at one index with another or above it, and the nodes are at
// their helper indices.
fn are_complete(alloc: Global, leaves: &[Entry], nodes: &[Entry]) -> Result<bool, AllocError>
    ensures complete { IfOk result (λ yes. IsTrue yes ↔ AreComplete leaves.now nodes.now) }
    ensures fits { IfOk result (λ yes. IsTrue yes
        → AllByRecursion (λ index. index < 2 ^ 128) (indices_of leaves.now)) }
{
    if leaves.is_empty() || !ascend(leaves) {
        return Ok(false);
    }
    let indices_of_leaves = indices(alloc, leaves)?;
    let indices_of_nodes = indices(alloc, nodes)?;
    are_helpers(alloc, &indices_of_leaves, &indices_of_nodes)
}

// Whether each index is above the one before it, and the first above 0.
fn ascend(entries: &[Entry]) -> bool
    ensures ascends { IsTrue result ↔ AscendFrom 0 (indices_of entries.now) }
    ensures fits { IsTrue result
        → AllByRecursion (λ index. index < 2 ^ 128) (indices_of entries.now) }
{
    let mut last = 0;
    for entry in entries {
        let index = entry.index.get();
        if index <= last {
            return false;
        }
        last = index;
    }
    true
}

// The indices of entries.
fn indices(alloc: Global, entries: &[Entry]) -> Result<Vec<Gindex>, AllocError>
    ensures { IfOk result (λ indices. indices.items ≡ indices_of entries.now) }
{
    entries.iter().map(|entry| entry.index).collect(alloc)
}
