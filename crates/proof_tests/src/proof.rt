use super::chunks::chunk;
use ssz_chunk::{Chunk, PairHash, ShaPair, XorPair};
use ssz_gindex::Gindex;
use ssz_proof::{Entry, Proof, ProofFault, calc, proof_text, read_proof, verify};
use std::alloc::{AllocError, Global};
use std::test::Fail;

// In the texts `[` stands for `0x`, and `]` for the zeros behind a chunk's first byte.

const FOUR: &str = "proof 4=[01] 6=[03] / 7=[04] 5=[02]\n";

const TWO: &str = "proof 2=[01] / 3=[02]\n";

const ONE: &str = "proof 1=[01] /\n";

const DEEP: &str = "proof 10=[10] / 11=[20] 4=[02] 3=[03]\n";

// A text, and what is printed of its proof.
const PRINTED: [(&str, &str); 6] = [
    (FOUR, FOUR),
    ("proof 6=[03] 4=[01] / 7=[04] 5=[02]", FOUR),
    (TWO, TWO),
    (ONE, ONE),
    ("proof 1=[aB] /", "proof 1=[ab] /\n"),
    (DEEP, DEEP),
];

// Texts that are no proof.
const REFUSED: [&str; 24] = [
    "",
    "\n",
    "proof",
    "proof /",
    "proof / 3=[02]",
    "proof 4=[01] 6=[03] / 5=[02] 7=[04]",
    "proof 4=[01] 6=[03] / 7=[04]",
    "proof 2=[01]",
    "proof 2=[01] /",
    "proof 2=[01] / 3=[02] 1=[03]",
    "proof 0=[01] /",
    "proof 02=[01] / 3=[02]",
    "proof 1=[01] / 2=[01]",
    "proof 2=[01] 2=[01] / 3=[02]",
    "proof 1=[01] 2=[01] / 3=[02]",
    "proof 1=[01] /\r\n",
    "proof 1=[01] /\n\n",
    "proof  1=[01] /",
    "proof 1=[01] / ",
    "proof 1=[1] /",
    "proof 1=[0x] /",
    "proof 1:[01] /",
    "Proof 1=[01] /",
    "proof 340282366920938463463374607431768211457=[01] /",
];

// A text, and the two halves of the root that it leads to: by hashlib of Python, and by
// bytes(left[(i + 1) % 32] ^ right[i] for i in range(32)) in its place.
const BY_SHA: [(&str, u128, u128); 4] = [
    (
        FOUR,
        0xbfe3c665d2e561f13b30606c580cb703,
        0xb2041287e212ade110f0bfd8563e21bb,
    ),
    (
        TWO,
        0xff55c97976a840b4ced964ed49e37945,
        0x94ba3f675238b5fd25d282b60f70a194,
    ),
    (ONE, 0x01000000000000000000000000000000, 0),
    (
        DEEP,
        0xaf111f963e579f742c496caf90774d44,
        0xc3c08acc6c8671c2920fd91e9172afdc,
    ),
];

const BY_XOR: [(&str, u128, u128); 4] = [
    (FOUR, 0x04000000000000000000000000000000, 0x0101),
    (TWO, 0x02000000000000000000000000000000, 0x01),
    (ONE, 0x01000000000000000000000000000000, 0),
    (DEEP, 0x03000000000000000000000000000000, 0x1220),
];

pub fn expanded(alloc: Global, text: &str) -> Result<Vec<u8>, AllocError> {
    let mut bytes = Vec::new(alloc);
    for byte in text.bytes() {
        match byte {
            b'[' => bytes.extend_from_slice(b"0x")?,
            b']' => bytes.extend_from_slice(&[b'0'; 62])?,
            other => bytes.push(other)?,
        }
    }
    Ok(bytes)
}

fn read(alloc: Global, text: &str) -> Result<Proof, Fail> {
    Ok(read_proof(alloc, &expanded(alloc, text)?)?)
}

// Whether the proof of a text is printed so.
fn is_printed(alloc: Global, text: &str, printed: &str) -> Result<bool, Fail> {
    let made = proof_text(alloc, &read(alloc, text)?)?;
    let wanted = expanded(alloc, printed)?;
    Ok(made.as_slice() == wanted.as_slice())
}

#[test]
fn texts(rt: HostRuntime) -> Result<(), Fail> {
    for (text, printed) in &PRINTED {
        assert!(rt; is_printed(rt.alloc(), text, printed)?);
    }
    Ok(())
}

fn is_refused(alloc: Global, text: &str) -> Result<bool, AllocError> {
    let bytes = expanded(alloc, text)?;
    Ok(read_proof(alloc, &bytes).err() == Some(ProofFault::BadProof))
}

#[test]
fn refused(rt: HostRuntime) -> Result<(), Fail> {
    for text in &REFUSED {
        assert!(rt; is_refused(rt.alloc(), text)?, "{text}");
    }
    Ok(())
}

// Whether the proof of a text leads to this root, by SHA-256.
fn is_sha_root(alloc: Global, text: &str, root: &Chunk) -> Result<bool, Fail> {
    let proof = read(alloc, text)?;
    Ok(calc(&proof, &mut ShaPair::new()) == *root)
}

#[test]
fn sha_roots(rt: HostRuntime) -> Result<(), Fail> {
    for (text, high, low) in &BY_SHA {
        assert!(rt; is_sha_root(rt.alloc(), text, &chunk(*high, *low))?);
    }
    Ok(())
}

// Whether the proof of a text is one of the first root, and not of the other, by XorPair.
fn is_of(alloc: Global, text: &str, root: &Chunk, other: &Chunk) -> Result<bool, Fail> {
    let proof = read(alloc, text)?;
    let mut hasher = XorPair::new();
    Ok(verify(&proof, root, &mut hasher) && !verify(&proof, other, &mut hasher))
}

#[test]
fn xor_roots(rt: HostRuntime) -> Result<(), Fail> {
    for (text, high, low) in &BY_XOR {
        let root = chunk(*high, *low);
        let other = chunk(*high, *low ^ 1);
        assert!(rt; is_of(rt.alloc(), text, &root, &other)?);
    }
    Ok(())
}

#[test]
fn pairs(rt: HostRuntime) -> Result<(), Fail> {
    let proof = read(rt.alloc(), FOUR)?;
    let mut hasher = XorPair::new();
    let _ = calc(&proof, &mut hasher);
    assert!(rt; hasher.count() == 3);
    Ok(())
}

// Chunks with these first bytes, at these indices.
fn entries(alloc: Global, list: &[(u128, u8)]) -> Result<Vec<Entry>, Fail> {
    let mut entries = Vec::new(alloc);
    for (number, first) in list {
        let index = Gindex::new(*number).ok_or("an index of 0")?;
        let chunk = chunk(u128::from(*first) << 120, 0);
        entries.push(Entry { index, chunk })?;
    }
    Ok(entries)
}

// The proof of these leaves and nodes.
fn listed(alloc: Global, leaves: &[(u128, u8)], nodes: &[(u128, u8)]) -> Result<Proof, Fail> {
    let leaves = entries(alloc, leaves)?;
    let nodes = entries(alloc, nodes)?;
    Ok(Proof::new(alloc, &leaves, &nodes)?)
}

// Whether the entries are these.
fn are(alloc: Global, found: &[Entry], wanted: &[(u128, u8)]) -> Result<bool, Fail> {
    let wanted = entries(alloc, wanted)?;
    Ok(found == wanted.as_slice())
}

#[test]
fn lists(rt: HostRuntime) -> Result<(), Fail> {
    let nodes = [(7, 4), (5, 2)];
    let proof = listed(rt.alloc(), &[(6, 3), (4, 1)], &nodes)?;
    assert!(rt; are(rt.alloc(), proof.leaves(), &[(4, 1), (6, 3)])?);
    assert!(rt; are(rt.alloc(), proof.nodes(), &nodes)?);
    Ok(())
}

fn are_refused(alloc: Global, leaves: &[(u128, u8)], nodes: &[(u128, u8)]) -> Result<bool, Fail> {
    let leaves = entries(alloc, leaves)?;
    let nodes = entries(alloc, nodes)?;
    let refused = Proof::new(alloc, &leaves, &nodes).err();
    Ok(refused == Some(ProofFault::BadProof))
}

#[test]
fn refused_lists(rt: HostRuntime) -> Result<(), Fail> {
    let nodes = [(5, 2), (7, 4)];
    assert!(rt; are_refused(rt.alloc(), &[(6, 3), (4, 1)], &nodes)?);
    assert!(rt; are_refused(rt.alloc(), &[], &nodes)?);
    Ok(())
}
