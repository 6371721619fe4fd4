// Roots of bytes, generalized indices, and proofs.
ghost use Rattle.std.specs.Prelude.{IfOk};

use crate::answers::{say_bytes, told};
use crate::paths::to_element;
use crate::sample::Sample;
use anyhow::{Context, Result};
use ssz_chunk::{Chunk, ShaPair, ZeroTable};
use ssz_clash::{Clash, clash};
use ssz_gindex::{Gindex, helper_indices};
use ssz_proof::{Proof, read_proof, verify};
use ssz_roots::root_of_bytes;
use std::fs;

/// The root of the value, straight from its bytes.
pub fn root_of(sample: &Sample, hasher: &mut ShaPair) -> Chunk {
    let zeros = ZeroTable::new(hasher);
    let bytes = sample.bytes.as_slice();
    root_of_bytes(&sample.schema, sample.id, bytes, &zeros, hasher)
}

// Where the tree of the type has an element of `b`, and which nodes a proof of it needs.
fn show_index(rt: &HostRuntime, sample: &Sample) -> Result<()> {
    let path = to_element(rt.alloc(), "b", 4)?;
    let index = Gindex::of_path(&sample.schema, sample.id, path.as_slice());
    let index = index.context("no such path")?;
    print!(rt; "index {}, helpers", index.get())?;
    for helper in told(helper_indices(rt.alloc(), &[index]))?.as_slice() {
        print!(rt; " {}", helper.get())?;
    }
    println!(rt;)?;
    Ok(())
}

/// The proof that a file holds.
pub fn proof_in(rt: &HostRuntime, path: &str) -> Result<Proof> {
    let text = fs::read(rt, path)?;
    told(read_proof(rt.alloc(), text.as_slice()))
}

// Whether two proofs of the same places lead to one root from different leaves: then the first
// place where two unlike pairs of chunks have one hash.
fn show_clash(rt: &HostRuntime, first: &Proof, second: &Proof) -> Result<()> {
    match told(clash(first, second, &mut ShaPair::new()))? {
        Clash::Same => println!(rt; "the leaves are the same")?,
        Clash::Unlike { index, .. } => println!(rt; "a collision at {}", index.get())?,
    }
    Ok(())
}

/// The root, an index, and whether a proof leads to the root.
pub fn show(rt: &HostRuntime, sample: &Sample, file: &str) -> Result<()> {
    let mut hasher = ShaPair::new();
    let root = root_of(sample, &mut hasher);
    say_bytes(rt, "root", &root.0)?;
    show_index(rt, sample)?;
    let proof = proof_in(rt, file)?;
    let holds = verify(&proof, &root, &mut hasher);
    println!(rt; "the proof leads to the root: {holds}")?;
    show_clash(rt, &proof, &proof)
}
