// Makes the value of a file into nodes, and so many times reads the value back from them, measures
// its encoding or writes that; or decodes or encodes it with no nodes:
// decode|encode|read|measure|write SCHEMA TYPE FILE TIMES.
ghost use Rattle.ssz_arena.specs.Content.{IsNodeOf};

use super::nodes::node_of;
use anyhow::{Result, bail};
use bench_values::codec::{decodes, encodes};
use bench_values::inputs::Sample;
use ssz_arena::{Arena, NodeId};
use ssz_chunk::{PairHash, ShaPair};
use ssz_reading::read_value;
use ssz_writing::write_encoding;
use std::alloc::Global;

const USAGE: &str = "usage: bench reading decode|encode|read|measure|write SCHEMA TYPE FILE TIMES";

fn reads<H: PairHash>(
    alloc: Global,
    arena: &Arena<H>,
    sample: &Sample,
    node: NodeId,
    times: u32,
) -> Result<()>
    requires { IsNodeOf arena.now node }
{
    for _ in 0..times {
        drop(read_value(alloc, arena, &sample.schema, sample.id, node)?);
    }
    Ok(())
}

// A limit of 0 is exceeded, which is known once the encoding is measured.
fn measures<H: PairHash>(
    alloc: Global,
    arena: &Arena<H>,
    sample: &Sample,
    node: NodeId,
    times: u32,
) -> Result<()>
    requires { IsNodeOf arena.now node }
{
    let mut out = Vec::new(alloc);
    for _ in 0..times {
        if write_encoding(arena, &sample.schema, sample.id, node, 0, &mut out).is_ok() {
            bail!("written");
        }
    }
    Ok(())
}

fn writes<H: PairHash>(
    alloc: Global,
    arena: &Arena<H>,
    sample: &Sample,
    node: NodeId,
    times: u32,
) -> Result<()>
    requires { IsNodeOf arena.now node }
{
    let mut out = Vec::new(alloc);
    for _ in 0..times {
        out.clear();
        if write_encoding(arena, &sample.schema, sample.id, node, u32::MAX, &mut out).is_err() {
            bail!("not written");
        }
    }
    Ok(())
}

// Does one of these with the node of a value.
fn over_node<H: PairHash>(
    alloc: Global,
    what: &str,
    arena: &Arena<H>,
    sample: &Sample,
    node: NodeId,
    times: u32,
) -> Result<()>
    requires { IsNodeOf arena.now node }
{
    match what {
        "read" => reads(alloc, arena, sample, node, times),
        "measure" => measures(alloc, arena, sample, node, times),
        "write" => writes(alloc, arena, sample, node, times),
        _ => bail!(USAGE),
    }
}

// The same, with the nodes of the value of a file.
fn over_nodes(alloc: Global, what: &str, sample: &Sample, times: u32) -> Result<()> {
    let mut arena = Arena::start(alloc, &mut ShaPair::new())?;
    let node = node_of(&mut arena, sample)?;
    over_node(alloc, what, &arena, sample, node, times)
}

/// Does one of these, or decodes or encodes the value.
pub fn work(alloc: Global, what: &str, sample: &Sample, times: u32) -> Result<()> {
    match what {
        "decode" => decodes(alloc, sample, times),
        "encode" => encodes(alloc, sample, times),
        _ => over_nodes(alloc, what, sample, times),
    }
}
