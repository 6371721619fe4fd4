// Makes versions under many names, and then gets, forks or drops them all, or makes the names
// alone: none|make|get|fork|drop up|down|far|long COUNT.
ghost use Rattle.std.specs.Prelude.{IfOk};
ghost use Rattle.ssz_schema.specs.Names.{IsName};

use anyhow::{Context, Result, bail};
use bench_values::inputs::number;
use ssz_arena::{Arena, NodeId};
use ssz_chunk::XorPair;
use ssz_schema::{Name, Schema, TypeId, is_name};
use ssz_versions::{Versions, Writer};
use std::alloc::{AllocError, Global};

const USAGE: &str = "usage: bench versions none|make|get|fork|drop up|down|far|long COUNT";

const WRITER: Writer = Writer(0);

// From a name's number to the next one's: an odd number that leads all over the numbers.
const FAR: u32 = 2_654_435_761;

// In which order names come.
#[derive(Clone, Copy)]
struct Order {
    // From a name's number to the next one's.
    stride: u32,
    // Whether the names have 64 bytes, of which the first 56 are alike.
    long: bool,
}

fn order_of(word: &str) -> Option<Order> {
    let (stride, long) = match word {
        "up" => (1, false),
        "down" => (u32::MAX, false),
        "far" => (FAR, false),
        "long" => (1, true),
        _ => return None,
    };
    Some(Order { stride, long })
}

// The name of the i-th version: a letter, or 56 of them, and the eight digits of a number.
fn name(alloc: Global, letter: u8, order: Order, i: u32) -> Result<Name>
    ensures { IfOk result IsName }
{
    let mut bytes = [letter; 64];
    let mut rest = i.wrapping_mul(order.stride);
    for k in 0..8 {
        bytes[63 - k] = b"0123456789abcdef"[(rest % 16) as usize];
        rest /= 16;
    }
    let start = if order.long { 0 } else { 55 };
    let name = Name::copy_of(alloc, &bytes[start..])?;
    if !is_name(name.as_bytes()) {
        bail!("no name");
    }
    Ok(name)
}

// Makes the names alone.
fn names(alloc: Global, order: Order, count: u32) -> Result<()> {
    for i in 0..count {
        name(alloc, b'v', order, i)?;
    }
    Ok(())
}

// The type of all versions.
fn number_type(alloc: Global) -> Result<TypeId> {
    let schema = Schema::empty(alloc)?;
    let id = schema.find("uint8");
    drop(schema);
    id.context("uint8")
}

// The node of all versions.
fn zero_node(alloc: Global) -> Result<NodeId, AllocError> {
    let arena = Arena::start(alloc, &mut XorPair::new())?;
    Ok(arena.zero(0))
}

fn make(alloc: Global, versions: &mut Versions, order: Order, count: u32) -> Result<()> {
    let id = number_type(alloc)?;
    let node = zero_node(alloc)?;
    for i in 0..count {
        let version = name(alloc, b'v', order, i)?;
        if versions.make(WRITER, &version, id, node).is_err() {
            bail!("not made");
        }
    }
    Ok(())
}

fn get(alloc: Global, versions: &Versions, order: Order, count: u32) -> Result<()> {
    for i in 0..count {
        let version = name(alloc, b'v', order, i)?;
        versions.get(WRITER, &version).context("not held")?;
    }
    Ok(())
}

fn fork(alloc: Global, versions: &mut Versions, order: Order, count: u32) -> Result<()> {
    for i in 0..count {
        let from = name(alloc, b'v', order, i)?;
        let to = name(alloc, b'w', order, i)?;
        if versions.fork(WRITER, &from, &to).is_err() {
            bail!("not forked");
        }
    }
    Ok(())
}

fn drop_all(alloc: Global, versions: &mut Versions, order: Order, count: u32) -> Result<()> {
    for i in 0..count {
        let version = name(alloc, b'v', order, i)?;
        if versions.drop_version(WRITER, &version).is_err() {
            bail!("not dropped");
        }
    }
    Ok(())
}

// Makes the versions, and does this with them.
fn change(
    alloc: Global,
    what: &str,
    versions: &mut Versions,
    order: Order,
    count: u32,
) -> Result<()> {
    make(alloc, versions, order, count)?;
    match what {
        "make" => Ok(()),
        "get" => get(alloc, versions, order, count),
        "fork" => fork(alloc, versions, order, count),
        "drop" => drop_all(alloc, versions, order, count),
        _ => bail!(USAGE),
    }
}

// The same, from no versions.
fn work(alloc: Global, what: &str, order: Order, count: u32) -> Result<()> {
    let mut versions = Versions::empty(alloc)?;
    let done = change(alloc, what, &mut versions, order, count);
    drop(versions);
    done
}

/// Does the work of the words.
pub fn run(rt: &HostRuntime, words: &[String]) -> Result<()> {
    let [what, order, count] = words else {
        bail!(USAGE);
    };
    let order = order_of(order).context(USAGE)?;
    let count = number(count)?;
    match what.as_str() {
        "none" => names(rt.alloc(), order, count),
        _ => work(rt.alloc(), what, order, count),
    }
}
