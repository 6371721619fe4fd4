// The nodes of the value of a file.
ghost use Rattle.std.specs.Prelude.{IfOk};
ghost use Rattle.ssz_arena.specs.Content.{IsNodeOf};

use anyhow::Result;
use bench_values::inputs::{Sample, faultless};
use ssz_arena::{Arena, NodeId};
use ssz_chunk::PairHash;
use ssz_tree::build_bytes;

/// The node of the value that the bytes encode.
pub fn node_of<H: PairHash>(arena: &mut Arena<H>, sample: &Sample) -> Result<NodeId>
    ensures { IfOk result (IsNodeOf arena.new) }
{
    faultless(sample)?;
    let bytes = sample.bytes.as_slice();
    let node = build_bytes(arena, &sample.schema, sample.id, bytes)?;
    Ok(node)
}
