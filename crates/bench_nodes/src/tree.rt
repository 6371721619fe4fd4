// Makes the nodes of a list of numbers, of validators or of short lists, or checks its bytes alone:
// numbers|containers|lists COUNT build|check SCHEMA; or as many bare nodes:
// nodes COUNT build|check.
ghost use Rattle.std.specs.Prelude.{◌*◌, ◌<◌, ◌^◌, ◌≤◌, length};

use super::nodes::node_of;
use anyhow::{Result, bail};
use bench_values::inputs::{Sample, faultless, number, read_type, sample_of};
use ssz_arena::Arena;
use ssz_chunk::{Chunk, PairHash, ShaPair};
use std::alloc::{AllocError, Global};

const USAGE: &str = "usage: bench tree numbers|containers|lists COUNT build|check SCHEMA,
or bench tree nodes COUNT build|check";

// The encoding of a list of so many lists, each of 8 bytes 1: the offsets, and then the lists.
fn lists(alloc: Global, count: u32) -> Result<Vec<u8>, AllocError> {
    let mut bytes = Vec::new(alloc);
    let mut offset = count.saturating_mul(4);
    for _i in 0..count {
        bytes.extend_from_slice(offset.to_le_bytes().as_slice())?;
        offset = offset.saturating_add(8);
    }
    for _i in 0..count {
        bytes.extend_from_slice([1u8; 8].as_slice())?;
    }
    Ok(bytes)
}

// The name of the type of a list.
fn type_name(what: &str) -> Result<&'static str> {
    match what {
        "numbers" => Ok("Numbers"),
        "containers" => Ok("Validators"),
        "lists" => Ok("Lists"),
        _ => bail!(USAGE),
    }
}

// The encoding of a list of so many elements.
fn list_of(alloc: Global, what: &str, count: u32) -> Result<Vec<u8>, AllocError> {
    let size = match what {
        "numbers" => 8,
        "containers" => 121,
        _ => return lists(alloc, count),
    };
    Vec::from_elem(alloc, 1u8, count as usize * size)
}

// The same with its type, of a schema file.
fn list_in(rt: &HostRuntime, what: &str, count: u32, schema: &str) -> Result<Sample> {
    let name = type_name(what)?;
    let bytes = list_of(rt.alloc(), what, count)?;
    let typed = read_type(rt, schema, name)?;
    sample_of(typed, bytes)
}

// Checks the bytes of a value, and makes them into nodes or not.
fn build<H: PairHash>(arena: &mut Arena<H>, sample: &Sample, makes: bool) -> Result<()> {
    if !makes {
        return faultless(sample);
    }
    node_of(arena, sample)?;
    Ok(())
}

// So many leaves, and as many pairs.
fn bare<H: PairHash>(arena: &mut Arena<H>, count: u32) -> Result<()> {
    arena.reserve_exact(2 * count as usize)?;
    let mut top = arena.zero(0);
    for _i in 0..count {
        let leaf = arena.leaf(Chunk([1; 32]));
        top = arena.pair(leaf, top);
    }
    Ok(())
}

fn work<H: PairHash>(
    rt: &HostRuntime,
    arena: &mut Arena<H>,
    what: &str,
    count: u32,
    makes: bool,
    schema: &[String],
) -> Result<()> {
    if what == "nodes" {
        return if makes { bare(arena, count) } else { Ok(()) };
    }
    let [schema] = schema else {
        bail!(USAGE);
    };
    let sample = list_in(rt, what, count, schema)?;
    let built = build(arena, &sample, makes);
    drop(sample);
    built
}

/// Does the work of the words, and says how many nodes there are and for how many more there is
/// room.
pub fn run(rt: &HostRuntime, words: &[String]) -> Result<()> {
    let [what, count, how, schema @ ..] = words else {
        bail!(USAGE);
    };
    let count = number(count)?;
    let mut hasher = ShaPair::new();
    let mut arena = Arena::start(rt.alloc(), &mut hasher)?;
    let done = work(rt, &mut arena, what, count, how.as_str() == "build", schema);
    let (nodes, spare) = (arena.len(), arena.spare());
    drop(arena);
    done?;
    println!(rt; "{nodes} nodes, room for {spare} more")?;
    Ok(())
}
