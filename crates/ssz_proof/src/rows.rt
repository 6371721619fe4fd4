// The calculation of a root, several indices side by side.
ghost use Rattle.std.specs.Prelude.{◌≡◌, ℕ, ◌+◌, ◌*◌, ◌<◌, ◌≤◌, ◌^◌, ◌++◌, ◌⊎◌, List, None, length, option_map, slice_index, take};
ghost use Rattle.std.specs.List.{filter};
ghost use Rattle.ssz_chunk.specs.Rows.{chunk_in_row as row_at};
ghost use Rattle.ssz_proof.specs.Calculation.{calculate_root, chunk_at, indices_of};
ghost use Rattle.ssz_proof.specs.Descent.{IsReached, levels_below};
ghost use Rattle.ssz_proof.specs.Multiproof.{IsOrdered};
ghost use Rattle.ssz_proof.specs.Rows.{AreCalculated, ArePlaced, AreReached, AreUnknown, IsPlaced, children, is_unknown, levels_below_all};

use crate::calculation::chunk_of;
use crate::entry::Entry;
use ssz_chunk::{Chunk, PairHash};

// So many indices are gone down from together.
const WIDTH: usize = 8;

// What is known at some indices, and where in the row that is not.
#[derive(Clone, Copy)]
struct Looked {
    row: [Chunk; 2 * WIDTH],
    unknown: [u128; 2 * WIDTH],
    places: [usize; 2 * WIDTH],
    count: usize,
}

// What is known at these indices.
fn look(leaves: &[Entry], nodes: &[Entry], indices: &[u128]) -> Looked
    requires ordered { IsOrdered (record { leaves = leaves.now; nodes = nodes.now }) }
    requires few { length indices.now ≤ 16 }
    ensures few { result.count ≤ length indices.now }
    ensures long { length result.unknown ≡ 16 }
    ensures placed { length result.places ≡ 16 }
    ensures unknown { take result.count result.unknown
        ≡ filter (is_unknown (leaves.now ++ nodes.now)) indices.now }
    ensures places { ArePlaced indices.now result.unknown result.places result.count }
    ensures row { (pair_of : List ℕ → List ℕ → List ℕ) (i : ℕ) → i < length indices.now
        → (row_at result.row i
        ≡ calculate_root pair_of (leaves.now ++ nodes.now) (slice_index indices.now i))
        ⊎ IsPlaced result.places result.count i }
{
    let mut row = [Chunk::ZERO; 2 * WIDTH];
    let mut unknown = [0; 2 * WIDTH];
    let mut places = [0; 2 * WIDTH];
    let mut count = 0;
    'indices: for i in 0..indices.len() {
        if let Some(chunk) = chunk_of(leaves, nodes, indices[i]) {
            row[i] = chunk;
        } else {
            unknown[count] = indices[i];
            places[count] = i;
            count += 1;
        }
    }
    Looked {
        row,
        unknown,
        places,
        count,
    }
}

// Puts chunks at their places in a row.
fn place_all(row: &mut [Chunk; 2 * WIDTH], places: &[usize], made: &[Chunk])
    requires made { length places.now ≤ length made.now }
    requires inside { (j : ℕ) → j < length places.now → slice_index places.now j < 16 }
    ensures { (f : ℕ → List ℕ)
        → ((j : ℕ) → j < length places.now → row_at made.now j ≡ f (slice_index places.now j))
        → (k : ℕ) → (row_at row.old k ≡ f k) ⊎ IsPlaced places.now (length places.now) k
        → row_at row.new k ≡ f k }
{
    'places: for j in 0..places.len() {
        row[places[j]] = made[j];
    }
}

// Both children of at most eight indices, side by side.
fn children(indices: &[u128]) -> [u128; 2 * WIDTH]
    requires few { length indices.now ≤ 8 }
    requires fits { (j : ℕ) → j < length indices.now → 2 * slice_index indices.now j + 1 < 2 ^ 128 }
    ensures long { length result ≡ 16 }
    ensures value { take (2 * length indices.now) result ≡ children indices.now }
{
    let mut found = [0; 2 * WIDTH];
    'indices: for i in 0..indices.len() {
        found[2 * i] = 2 * indices[i];
        found[2 * i + 1] = 2 * indices[i] + 1;
    }
    found
}

// The chunk at an index that is not known: that of the pair of its children.
#[cycle(rows)]
pub(crate) fn calculate<H: PairHash>(
    leaves: &[Entry],
    nodes: &[Entry],
    index: u128,
    hasher: &mut H,
) -> Chunk
    requires ordered { IsOrdered (record { leaves = leaves.now; nodes = nodes.now }) }
    requires positive { 0 < index }
    requires reached { IsReached leaves.now nodes.now index }
    requires unknown { None ≡ chunk_at (leaves.now ++ nodes.now) index }
    ensures value { result.0 ≡ calculate_root H.pair_of (leaves.now ++ nodes.now) index }
    ensures rises { H.pairs hasher.old ≤ H.pairs hasher.new }
    ensures pairs { H.pairs hasher.new
        ≤ H.pairs hasher.old + levels_below index (indices_of leaves.now) }
{
    let first = 2 * index;
    let second = first + 1;
    let left = chunk_of(leaves, nodes, first);
    let right = chunk_of(leaves, nodes, second);
    if left.is_none() {
        if right.is_none() {
            let mut both = [Chunk::ZERO; 2];
            calculate_row(leaves, nodes, &[first, second], &mut both, hasher);
            return hasher.pair(&both[0], &both[1]);
        }
    }
    let left = found_or_calculated(leaves, nodes, first, left, hasher);
    let right = found_or_calculated(leaves, nodes, second, right, hasher);
    hasher.pair(&left, &right)
}

// The chunk at an index, where this was found there.
#[cycle(rows)]
fn found_or_calculated<H: PairHash>(
    leaves: &[Entry],
    nodes: &[Entry],
    index: u128,
    found: Option<Chunk>,
    hasher: &mut H,
) -> Chunk
    requires ordered { IsOrdered (record { leaves = leaves.now; nodes = nodes.now }) }
    requires positive { 0 < index }
    requires reached { IsReached leaves.now nodes.now index }
    requires found { option_map (λ chunk. chunk.0) found
        ≡ chunk_at (leaves.now ++ nodes.now) index }
    ensures value { result.0 ≡ calculate_root H.pair_of (leaves.now ++ nodes.now) index }
    ensures rises { H.pairs hasher.old ≤ H.pairs hasher.new }
    ensures pairs { H.pairs hasher.new
        ≤ H.pairs hasher.old + levels_below index (indices_of leaves.now) }
{
    match found {
        Some(chunk) => chunk,
        None => calculate(leaves, nodes, index, hasher),
    }
}

// The same of at most eight, side by side.
#[cycle(rows)]
fn calculate_row<H: PairHash>(
    leaves: &[Entry],
    nodes: &[Entry],
    indices: &[u128],
    row: &mut [Chunk],
    hasher: &mut H,
)
    requires ordered { IsOrdered (record { leaves = leaves.now; nodes = nodes.now }) }
    requires few { length indices.now ≤ 8 }
    requires some { 0 < length indices.now }
    requires room { length row.old ≡ length indices.now }
    requires reached { AreReached leaves.now nodes.now indices.now }
    requires unknown { AreUnknown (leaves.now ++ nodes.now) indices.now }
    ensures value { AreCalculated H.pair_of (leaves.now ++ nodes.now) indices.now row.new }
    ensures rises { H.pairs hasher.old ≤ H.pairs hasher.new }
    ensures pairs { H.pairs hasher.new
        ≤ H.pairs hasher.old + levels_below_all leaves.now indices.now }
{
    if indices.len() == 1 {
        row[0] = calculate(leaves, nodes, indices[0], hasher);
        return;
    }
    let count = 2 * indices.len();
    let below = children(indices);
    let looked = look(leaves, nodes, &below[..count]);
    let mut pairs = looked.row;
    let mut made = [Chunk::ZERO; 2 * WIDTH];
    let due = looked.count;
    calculate_rows(
        leaves,
        nodes,
        &looked.unknown[..due],
        &mut made[..due],
        hasher,
    );
    place_all(&mut pairs, &looked.places[..due], &made[..due]);
    hasher.halve(&mut pairs[..count]);
    row.copy_from_slice(&pairs[..indices.len()]);
}

// The same of at most twice as many.
#[cycle(rows)]
fn calculate_rows<H: PairHash>(
    leaves: &[Entry],
    nodes: &[Entry],
    indices: &[u128],
    row: &mut [Chunk],
    hasher: &mut H,
)
    requires ordered { IsOrdered (record { leaves = leaves.now; nodes = nodes.now }) }
    requires few { length indices.now ≤ 16 }
    requires room { length row.old ≡ length indices.now }
    requires reached { AreReached leaves.now nodes.now indices.now }
    requires unknown { AreUnknown (leaves.now ++ nodes.now) indices.now }
    ensures value { AreCalculated H.pair_of (leaves.now ++ nodes.now) indices.now row.new }
    ensures rises { H.pairs hasher.old ≤ H.pairs hasher.new }
    ensures pairs { H.pairs hasher.new
        ≤ H.pairs hasher.old + levels_below_all leaves.now indices.now }
{
    if indices.is_empty() {
        return;
    }
    if indices.len() <= WIDTH {
        calculate_row(leaves, nodes, indices, row, hasher);
        return;
    }
    let (first, rest) = indices.split_at(WIDTH);
    let (front, back) = row.split_at_mut(WIDTH);
    calculate_row(leaves, nodes, first, front, hasher);
    calculate_row(leaves, nodes, rest, back, hasher);
}
