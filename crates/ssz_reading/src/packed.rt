//! Basic values and bits that are packed in the chunks of a full tree.
ghost use Rattle.std.specs.Prelude.{ℕ, ◌≡◌, ◌+◌, ◌*◌, ◌<◌, ◌≤◌, ◌^◌, ◌++◌, Bool, false, List, length, map, take, drop, slice_index_or, vec_len, vec_capacity, All, IfOk, OnOk, Some};
ghost use Rattle.std.specs.List.{AllByRecursion, concat};
ghost use Rattle.ssz_schema.specs.width.Width.TheVariants.{W8};
ghost use Rattle.ssz_schema.specs.Types.{uint, vector};
ghost use Rattle.ssz_chunk.specs.Tree.{Tree, leaf};
ghost use Rattle.ssz_schema.specs.Sizes.{basic_size};
ghost use Rattle.ssz_value.specs.Values.{SszValue, number, sequence, values, Fits};
ghost use Rattle.ssz_value.specs.Encoding.{serialize};
ghost use Rattle.ssz_value.specs.Standing.{value_of};
ghost use Rattle.ssz_value.specs.Shapes.{StandsBehind};
ghost use Rattle.ssz_arena.specs.Content.{IsNodeOf, tree_of};
ghost use Rattle.ssz_nodes.specs.Shown.{AreBits, AreChunksFrom, AreElements, ForElements, ForValue, basic_type, bit_in, chunk_from};

use ssz_arena::{Arena, NodeId};
use ssz_bytes::{BitRun, ByteRun};
use ssz_chunk::{Chunk, PairHash};
use ssz_nodes::{Basic, Places, Top, append_chunks, bit_of, chunk_of, few_bytes};
use ssz_schema::Width;
use ssz_value::Value;
use std::alloc::{AllocError, Global};

/// Count bytes. Those of one chunk take no memory.
#[inline(always)]
pub fn read_bytes<H: PairHash>(
    alloc: Global,
    arena: &Arena<H>,
    top: Top,
    count: u64,
) -> Result<ByteRun, AllocError>
    requires depth { top.depth < 64 }
    requires node { IsNodeOf arena.now top.node }
    ensures { ForElements (uint W8) top.depth count (tree_of arena.now top.node)
        (λ vs. IfOk result (λ run. map number run ≡ vs)) }
{
    if count <= 32 {
        return ByteRun::copy_of(alloc, few_bytes(arena, top, count as usize));
    }
    read_more(alloc, arena, top, count)
}

// The same of any number, which take memory of their own.
#[inline(never)]
fn read_more<H: PairHash>(
    alloc: Global,
    arena: &Arena<H>,
    top: Top,
    count: u64,
) -> Result<ByteRun, AllocError>
    requires depth { top.depth < 64 }
    requires node { IsNodeOf arena.now top.node }
    ensures { ForElements (uint W8) top.depth count (tree_of arena.now top.node)
        (λ vs. IfOk result (λ run. map number run ≡ vs)) }
{
    let mut bytes = Vec::with_capacity(alloc, count as usize)?;
    append_chunks(arena, top, u128::from(count), &mut bytes)?;
    Ok(ByteRun::from_bytes(bytes))
}

/// Puts count bytes behind the parts, for which there is room, as one of them: those of one chunk
/// in their place.
#[inline(always)]
pub fn put_bytes<H: PairHash>(
    alloc: Global,
    arena: &Arena<H>,
    top: Top,
    count: u64,
    parts: &mut Vec<Value>,
) -> Result<(), AllocError>
    requires depth { top.depth < 64 }
    requires node { IsNodeOf arena.now top.node }
    requires room { vec_len parts.old < vec_capacity parts.old }
    ensures put { ForElements (uint W8) top.depth count (tree_of arena.now top.node)
        (λ vs. OnOk result (StandsBehind (vector (uint W8) count) (sequence (values vs))
        parts.old.items parts.new.items)) }
    ensures len { OnOk result (vec_len parts.new ≡ vec_len parts.old + 1) }
    ensures capacity { OnOk result (vec_capacity parts.new ≡ vec_capacity parts.old) }
{
    if count <= 32 {
        let bytes = few_bytes(arena, top, count as usize);
        parts.push_reserved(Value::Bytes(ByteRun::copy_of(alloc, bytes)?));
        return Ok(());
    }
    put_more(alloc, arena, top, count, parts)
}

// The same of any number. A call of its own, so that nothing is made ready for it before.
#[inline(never)]
fn put_more<H: PairHash>(
    alloc: Global,
    arena: &Arena<H>,
    top: Top,
    count: u64,
    parts: &mut Vec<Value>,
) -> Result<(), AllocError>
    requires depth { top.depth < 64 }
    requires node { IsNodeOf arena.now top.node }
    requires room { vec_len parts.old < vec_capacity parts.old }
    ensures put { ForElements (uint W8) top.depth count (tree_of arena.now top.node)
        (λ vs. OnOk result (StandsBehind (vector (uint W8) count) (sequence (values vs))
        parts.old.items parts.new.items)) }
    ensures len { OnOk result (vec_len parts.new ≡ vec_len parts.old + 1) }
    ensures capacity { OnOk result (vec_capacity parts.new ≡ vec_capacity parts.old) }
{
    let bytes = read_more(alloc, arena, top, count)?;
    parts.push_reserved(Value::Bytes(bytes));
    Ok(())
}

/// Puts the number of the chunk of a leaf behind the parts, for which there is room.
#[inline(always)]
pub fn put_number(width: Width, chunk: &Chunk, parts: &mut Vec<Value>)
    requires { vec_len parts.old < vec_capacity parts.old }
    ensures put { (node : Tree) → ((bytes : List ℕ) → node ≡ leaf bytes → chunk.now.0 ≡ bytes)
        → ForValue (uint width) node (λ v. StandsBehind (uint width) v parts.old.items
        parts.new.items) }
    ensures len { vec_len parts.new ≡ vec_len parts.old + 1 }
    ensures capacity { vec_capacity parts.new ≡ vec_capacity parts.old }
{
    match width {
        // The commonest, by a reader that knows the width.
        Width::W64 => parts.push_reserved(Basic::Number(Width::W64).value_at(chunk, 0)),
        _ => parts.push_reserved(Basic::Number(width).value_at(chunk, 0)),
    }
}

/// Count values of a basic type.
pub fn read_packed<H: PairHash>(
    alloc: Global,
    arena: &Arena<H>,
    basic: Basic,
    top: Top,
    count: u64,
) -> Result<Vec<Value>, AllocError>
    requires depth { top.depth < 64 }
    requires node { IsNodeOf arena.now top.node }
    ensures { ForElements (basic_type basic) top.depth count (tree_of arena.now top.node)
        (λ vs. IfOk result (λ parts. map value_of parts.items ≡ vs)) }
{
    match basic {
        // The commonest, in a loop that knows the width.
        Basic::Number(Width::W64) => {
            read_each(alloc, arena, Basic::Number(Width::W64), top, count)
        }
        _ => read_each(alloc, arena, basic, top, count),
    }
}

#[inline(always)]
fn read_each<H: PairHash>(
    alloc: Global,
    arena: &Arena<H>,
    basic: Basic,
    top: Top,
    count: u64,
) -> Result<Vec<Value>, AllocError>
    requires depth { top.depth < 64 }
    requires node { IsNodeOf arena.now top.node }
    ensures { ForElements (basic_type basic) top.depth count (tree_of arena.now top.node)
        (λ vs. IfOk result (λ parts. map value_of parts.items ≡ vs)) }
{
    let per_chunk = 32 / basic.size();
    let mut parts = Vec::with_capacity(alloc, count as usize)?;
    let mut places = Places::new(top);
    let mut left = count as usize;
    // Whole chunks come first, so that it is known how many values each of them has.
    while left >= per_chunk {
        places.refill(arena);
        let row = places.row();
        let chunks = row.len().min(left / per_chunk);
        append_row(arena, basic, per_chunk, &row[..chunks], &mut parts);
        places.skip(chunks);
        left -= chunks * per_chunk;
    }
    if left == 0 {
        return Ok(parts);
    }
    let last = chunk_of(arena, places.next(arena));
    append_values(basic, last, left, &mut parts);
    Ok(parts)
}

// Appends the values of whole chunks, for which there is room: of each so many.
#[inline(always)]
fn append_row<H: PairHash>(
    arena: &Arena<H>,
    basic: Basic,
    per_chunk: usize,
    row: &[NodeId],
    parts: &mut Vec<Value>,
)
    requires per_chunk { (size : ℕ) → basic_size (basic_type basic) ≡ Some size
        → size * per_chunk ≡ 32 }
    requires nodes { All (IsNodeOf arena.now) row.now }
    requires room { vec_len parts.old + per_chunk * length row.now ≤ vec_capacity parts.old }
    ensures values { (vs : List SszValue) (j : ℕ) → AllByRecursion (Fits (basic_type basic)) vs
        → AreChunksFrom arena.now (concat (map (serialize (basic_type basic)) vs)) j row.now
        → per_chunk * (j + length row.now) ≤ length vs
        → map value_of parts.new.items ≡ map value_of parts.old.items
        ++ take (per_chunk * length row.now) (drop (per_chunk * j) vs) }
    ensures len { vec_len parts.new ≡ vec_len parts.old + per_chunk * length row.now }
    ensures capacity { vec_capacity parts.new ≡ vec_capacity parts.old }
{
    for node in row {
        append_values(basic, chunk_of(arena, *node), per_chunk, parts);
    }
}

// Appends the first count values of a chunk, for which there is room.
#[inline(always)]
fn append_values(basic: Basic, chunk: &Chunk, count: usize, parts: &mut Vec<Value>)
    requires within { (size : ℕ) → basic_size (basic_type basic) ≡ Some size → count * size ≤ 32 }
    requires room { vec_len parts.old + count ≤ vec_capacity parts.old }
    ensures values { (vs : List SszValue) (j from : ℕ) → AllByRecursion (Fits (basic_type basic)) vs
        → chunk.now.0 ≡ chunk_from (concat (map (serialize (basic_type basic)) vs)) j
        → ((size : ℕ) → basic_size (basic_type basic) ≡ Some size → from * size ≡ 32 * j)
        → from + count ≤ length vs
        → map value_of parts.new.items
        ≡ map value_of parts.old.items ++ take count (drop from vs) }
    ensures len { vec_len parts.new ≡ vec_len parts.old + count }
    ensures capacity { vec_capacity parts.new ≡ vec_capacity parts.old }
{
    let size = basic.size();
    for k in 0..count {
        parts.push_reserved(basic.value_at(chunk, k * size));
    }
}

/// Count bits.
pub fn read_bits<H: PairHash>(
    alloc: Global,
    arena: &Arena<H>,
    top: Top,
    count: u64,
) -> Result<BitRun, AllocError>
    requires depth { top.depth < 64 }
    requires node { IsNodeOf arena.now top.node }
    ensures { (bs : List Bool) → AreBits top.depth count bs (tree_of arena.now top.node)
        → IfOk result (λ run. run ≡ bs) }
{
    let mut bits = Vec::with_capacity(alloc, count as usize)?;
    let mut places = Places::new(top);
    let mut left = count as usize;
    while left > 0 {
        let chunk = chunk_of(arena, places.next(arena));
        let here = left.min(256);
        append_bits(chunk, here, &mut bits)?;
        left -= here;
    }
    Ok(BitRun::from_bits(bits))
}

// Appends the first count bits of a chunk.
fn append_bits(chunk: &Chunk, count: usize, bits: &mut Vec<bool>) -> Result<(), AllocError>
    requires { count ≤ 256 }
    ensures { (bs : List Bool) (from : ℕ) → ((k : ℕ) → k < count
        → bit_in chunk.now.0 k ≡ slice_index_or bs (from + k) false) → from + count ≤ length bs
        → OnOk result (bits.new.items ≡ bits.old.items ++ take count (drop from bs)) }
{
    for k in 0..count {
        bits.push(bit_of(chunk, k))?;
    }
    Ok(())
}
