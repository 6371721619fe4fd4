ghost use Rattle.std.specs.Prelude.{IfOk};
ghost use Rattle.ssz_arena.specs.Content.{IsNodeOf};

use super::chunks::beginning;
use super::proof::expanded;
use ssz_arena::{Arena, NodeId};
use ssz_chunk::{PairHash, XorPair};
use ssz_gindex::Gindex;
use ssz_proof::{Proof, proof_text, verify};
use ssz_prove::{ProveFault, prove};
use std::alloc::{AllocError, Global};
use std::test::Fail;

// What the rows are about.
#[derive(Clone, Copy, Debug)]
enum Made {
    // The tree of two fields that are 0.
    Zeros,
    // The full tree over the chunks that begin with 1, 2, 3 and 4.
    Four,
    // The tree of a list with room for 8 numbers of 64 bits that has one, 9.
    List,
}

fn built(arena: &mut Arena<XorPair>, kind: Made) -> Result<NodeId, AllocError>
    ensures { IfOk result (IsNodeOf arena.new) }
{
    arena.reserve(7)?;
    let chunks = match kind {
        Made::Zeros => return Ok(arena.zero(1)),
        Made::Four => [1, 2, 3, 4],
        Made::List => [9, 0, 1, 0],
    };
    let a = arena.leaf(beginning(chunks[0]));
    let b = arena.leaf(beginning(chunks[1]));
    let left = arena.pair(a, b);
    let c = arena.leaf(beginning(chunks[2]));
    if chunks[3] == 0 {
        return Ok(arena.pair(left, c));
    }
    let d = arena.leaf(beginning(chunks[3]));
    let right = arena.pair(c, d);
    Ok(arena.pair(left, right))
}

// The indices with these numbers, of which 0 stands for none.
fn indices(alloc: Global, numbers: &[u128]) -> Result<Vec<Gindex>, AllocError> {
    let mut indices = Vec::new(alloc);
    for number in numbers {
        if let Some(index) = Gindex::new(*number) {
            indices.push(index)?;
        }
    }
    Ok(indices)
}

// The proof at these indices, which leads to the root, if there is one.
fn proved_at(
    arena: &mut Arena<XorPair>,
    top: NodeId,
    indices: &[Gindex],
    hasher: &mut XorPair,
) -> Result<Result<Proof, ProveFault>, Fail>
    requires { IsNodeOf arena.old top }
{
    if indices.is_empty() {
        return Err("no index".into());
    }
    match prove(arena, top, indices, hasher) {
        Ok(proof) => {
            let root = arena.root(top, hasher);
            if !verify(&proof, &root, hasher) {
                return Err("another root".into());
            }
            Ok(Ok(proof))
        }
        Err(fault) => Ok(Err(fault)),
    }
}

// The proof at these numbers, if there is one.
fn proved(
    alloc: Global,
    kind: Made,
    numbers: &[u128],
    hasher: &mut XorPair,
) -> Result<Result<Proof, ProveFault>, Fail> {
    let indices = indices(alloc, numbers)?;
    let mut arena = Arena::start(alloc, hasher)?;
    let top = built(&mut arena, kind)?;
    proved_at(&mut arena, top, &indices, hasher)
}

type ProofRow = (Made, [u128; 4], &'static str);

// The chunks of each tree at its places, with those at the helper indices, from the last one down
// (merkle-proofs.md, Merkle multiproofs).
const PROOFS: [ProofRow; 5] = [
    (Made::Zeros, [1, 0, 0, 0], "proof 1=[00] /\n"),
    (Made::Zeros, [3, 2, 2, 0], "proof 2=[00] 3=[00] /\n"),
    (
        Made::Four,
        [4, 6, 0, 0],
        "proof 4=[01] 6=[03] / 7=[04] 5=[02]\n",
    ),
    (
        Made::Four,
        [6, 4, 6, 4],
        "proof 4=[01] 6=[03] / 7=[04] 5=[02]\n",
    ),
    // The place of four elements that the list does not have.
    (Made::List, [5, 0, 0, 0], "proof 5=[00] / 4=[09] 3=[01]\n"),
];

// Whether the proof at these numbers is printed so.
fn is_printed(alloc: Global, kind: Made, numbers: &[u128], text: &str) -> Result<bool, Fail> {
    let proof = proved(alloc, kind, numbers, &mut XorPair::new())??;
    let printed = proof_text(alloc, &proof)?;
    let wanted = expanded(alloc, text)?;
    Ok(printed.as_slice() == wanted.as_slice())
}

#[test]
fn proofs(rt: HostRuntime) -> Result<(), Fail> {
    for (kind, numbers, text) in &PROOFS {
        assert!(rt; is_printed(rt.alloc(), *kind, numbers, text)?);
    }
    Ok(())
}

// The numbers that a fault names.
fn named(fault: ProveFault) -> (u128, u128) {
    match fault {
        ProveFault::NoNode(index) => (index.get(), 0),
        ProveFault::Nested(upper, lower) => (upper.get(), lower.get()),
        ProveFault::Memory => (0, 0),
    }
}

// The numbers of the fault where there is no proof at these numbers.
fn fault_of(alloc: Global, kind: Made, numbers: &[u128]) -> Result<Option<(u128, u128)>, Fail> {
    let proof = proved(alloc, kind, numbers, &mut XorPair::new())?;
    Ok(proof.err().map(named))
}

type FaultRow = (Made, [u128; 4], (u128, u128));

// The least index without a node first, and then the lowest of two that are nested.
const FAULTS: [FaultRow; 5] = [
    (Made::Zeros, [1, 2, 0, 0], (1, 2)),
    (Made::Zeros, [4, 1, 0, 0], (4, 0)),
    (Made::Zeros, [1 << 64, 2, 0, 0], (1 << 64, 0)),
    (Made::Four, [9, 2, 8, 4], (8, 0)),
    (Made::Four, [4, 7, 2, 0], (2, 4)),
];

#[test]
fn faults(rt: HostRuntime) -> Result<(), Fail> {
    for (kind, numbers, answer) in &FAULTS {
        assert!(rt; fault_of(rt.alloc(), *kind, numbers)? == Some(*answer));
    }
    Ok(())
}

// How many pairs are hashed for a proof at an index.
fn pairs_for(
    arena: &mut Arena<XorPair>,
    top: NodeId,
    index: Gindex,
    hasher: &mut XorPair,
) -> Result<u64, Fail>
    requires { IsNodeOf arena.old top }
    ensures { IsNodeOf arena.new top }
{
    let start = hasher.count();
    prove(arena, top, &[index], hasher)?;
    Ok(hasher.count().saturating_sub(start))
}

// A proof of all hashes nothing, and one of a leaf the pair beside it.
#[test]
fn pairs(rt: HostRuntime) -> Result<(), Fail> {
    let mut hasher = XorPair::new();
    let mut arena = Arena::start(rt.alloc(), &mut hasher)?;
    let top = built(&mut arena, Made::Four)?;
    assert!(rt; pairs_for(&mut arena, top, Gindex::root().right(), &mut hasher)? == 2);
    assert!(rt; pairs_for(&mut arena, top, Gindex::root(), &mut hasher)? == 1);
    Ok(())
}
