// A value of which only a proof is there: parts are read and set, and the root is made again.
ghost use Rattle.std.specs.Prelude.{◌≡◌, ◌<◌, ◌^◌, length, IfOk};

use crate::answers::{say_bytes, told};
use crate::paths::to_field;
use crate::proofs::proof_in;
use crate::sample::Sample;
use crate::values::value_of;
use anyhow::{Context, Result};
use ssz_chunk::ShaPair;
use ssz_partial::Partial;
use ssz_schema::PathStep;
use std::alloc::Global;

// The tree of the proof of a file.
fn partial_in(rt: &HostRuntime, sample: &Sample, path: &str) -> Result<Partial>
    ensures { IfOk result (λ partial. partial.id ≡ sample.now.id) }
{
    let proof = proof_in(rt, path)?;
    Ok(Partial::from_proof(rt.alloc(), sample.id, &proof)?)
}

// Puts the value of these bytes in the place of the part at the path.
fn set_part(
    alloc: Global,
    sample: &Sample,
    partial: &mut Partial,
    path: &[PathStep],
    bytes: &[u8],
) -> Result<()>
    requires same { partial.old.id ≡ sample.now.id }
    requires short { length bytes.now < 2 ^ 32 }
    ensures { partial.new.id ≡ sample.now.id }
{
    let schema = &sample.schema;
    let part = schema.path_type(sample.id, path).context("no such part")?;
    let value = value_of(alloc, schema, part, bytes)?;
    let answer = partial.set(schema, path, &value);
    drop(value);
    told(answer)
}

// Reads `a`, sets it, and makes the root again.
fn show_set(rt: &HostRuntime, sample: &Sample, partial: &mut Partial) -> Result<()>
    requires { partial.old.id ≡ sample.now.id }
{
    let path = to_field(rt.alloc(), "a")?;
    let piece = told(partial.get(&sample.schema, path.as_slice()))?;
    let (len, first) = (piece.len, piece.bytes.0[0]);
    println!(rt; "a is known: its {len} bytes begin with {first}")?;
    set_part(rt.alloc(), sample, partial, path.as_slice(), &[0x07, 0x00])?;
    let root = partial.root(&mut ShaPair::new());
    say_bytes(rt, "with a = 7 the root is", &root.0)
}

/// The value of a file's proof of `a`.
pub fn show(rt: &HostRuntime, sample: &Sample, file: &str) -> Result<()> {
    let mut partial = partial_in(rt, sample, file)?;
    show_set(rt, sample, &mut partial)
}
