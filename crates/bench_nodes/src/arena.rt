// Edits leaves of a tree and asks its root after each edit or after all of them, or makes as many
// pairs in a bare loop: same|near|far|bulk|sets|pairs DEPTH COUNT.
ghost use Rattle.std.specs.Prelude.{IfOk, ◌≤◌};
ghost use Rattle.ssz_arena.specs.Content.{IsNodeOf};

use anyhow::{Context, Result, bail};
use bench_values::inputs::number;
use ssz_arena::{Arena, NodeId};
use ssz_chunk::{Chunk, PairHash, ShaPair};
use ssz_gindex::Gindex;
use std::alloc::Global;

const USAGE: &str =
    "usage: bench arena same|near|far|bulk|sets|pairs DEPTH COUNT, with a depth of at most 32";

// From an edit's leaf to the next one's: an odd number that leads all over the leaves.
const FAR: u32 = 2_654_435_761;

// The index of a leaf of a tree of this depth.
fn index_of(depth: u32, number: u32) -> Result<Gindex>
    requires { depth ≤ 32 }
{
    let places = 1 << depth;
    let place = u128::from(number) % places;
    Gindex::new(places | place).context("not 0")
}

// The tree with another leaf at an index.
fn replaced<H: PairHash>(arena: &mut Arena<H>, top: NodeId, index: Gindex) -> Result<NodeId>
    requires { IsNodeOf arena.old top }
    ensures { IfOk result (IsNodeOf arena.new) }
{
    arena.reserve(index.levels() as usize + 1)?;
    let leaf = arena.leaf(Chunk([7; 32]));
    let made = arena
        .replace(top, index, leaf)
        .context("the tree has this leaf")?;
    Ok(made)
}

// The tree of this depth with another leaf.
fn edited<H: PairHash>(arena: &mut Arena<H>, top: NodeId, depth: u32, number: u32) -> Result<NodeId>
    requires node { IsNodeOf arena.old top }
    requires low { depth ≤ 32 }
    ensures { IfOk result (IsNodeOf arena.new) }
{
    let index = index_of(depth, number)?;
    replaced(arena, top, index)
}

// Edits a zero tree, one leaf and then the one so many places on, with the root after each, and
// says how many nodes there are then.
fn edit<H: PairHash>(
    alloc: Global,
    depth: u32,
    count: u32,
    stride: u32,
    hasher: &mut H,
) -> Result<usize>
    requires { depth ≤ 32 }
{
    let mut arena = Arena::start(alloc, hasher)?;
    let mut top = arena.zero(depth);
    for i in 0..count {
        top = edited(&mut arena, top, depth, i.wrapping_mul(stride))?;
        arena.root(top, hasher);
    }
    Ok(arena.len())
}

// Edits as many leaves, all over the tree, with one root behind them where it is asked.
fn bulk<H: PairHash>(
    alloc: Global,
    depth: u32,
    count: u32,
    asks: bool,
    hasher: &mut H,
) -> Result<usize>
    requires { depth ≤ 32 }
{
    let mut arena = Arena::start(alloc, hasher)?;
    let mut top = arena.zero(depth);
    for i in 0..count {
        top = edited(&mut arena, top, depth, i.wrapping_mul(FAR))?;
    }
    if asks {
        arena.root(top, hasher);
    }
    Ok(arena.len())
}

// Makes as many pairs as the edits do.
fn pair<H: PairHash>(depth: u32, count: u32, hasher: &mut H) -> Chunk {
    let mut chunk = Chunk([7; 32]);
    for _ in 0..count {
        for _ in 0..depth {
            chunk = hasher.pair(&chunk, &Chunk::ZERO);
        }
    }
    chunk
}

// From an edit's leaf to the next one's.
fn stride_of(what: &str) -> Result<u32> {
    match what {
        "same" => Ok(0),
        "near" => Ok(1),
        "far" => Ok(FAR),
        _ => bail!(USAGE),
    }
}

// How many nodes there are after the edits.
fn nodes<H: PairHash>(
    alloc: Global,
    what: &str,
    depth: u32,
    count: u32,
    hasher: &mut H,
) -> Result<usize>
    requires { depth ≤ 32 }
{
    if what == "bulk" || what == "sets" {
        return bulk(alloc, depth, count, what == "bulk", hasher);
    }
    let stride = stride_of(what)?;
    edit(alloc, depth, count, stride, hasher)
}

// The number that is printed, and of what.
fn work<H: PairHash>(
    alloc: Global,
    what: &str,
    depth: u32,
    count: u32,
    hasher: &mut H,
) -> Result<(usize, &'static str)>
    requires { depth ≤ 32 }
{
    if what == "pairs" {
        let chunk = pair(depth, count, hasher);
        return Ok((usize::from(chunk.0[0]), "first"));
    }
    let made = nodes(alloc, what, depth, count, hasher)?;
    Ok((made, "nodes"))
}

/// Does the work of the words, and says how many nodes and pairs were made.
pub fn run(rt: &HostRuntime, words: &[String]) -> Result<()> {
    let [what, depth, count] = words else {
        bail!(USAGE);
    };
    let (depth, count) = (number(depth)?, number(count)?);
    if depth > 32 {
        bail!(USAGE);
    }
    let mut hasher = ShaPair::new();
    let (said, of) = work(rt.alloc(), what, depth, count, &mut hasher)?;
    let pairs = hasher.count();
    println!(rt; "{said} {of}\n{pairs} pairs")?;
    Ok(())
}
