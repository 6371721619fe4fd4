// Chunks of bytes, a row at a time.
ghost use Rattle.std.specs.Prelude.{◌≡◌, ℕ, [], ◌+◌, ◌-◌, ◌%◌, ◌<◌, ◌≤◌, ◌^◌, length};
ghost use Rattle.ssz_chunk.specs.Chunk.{CountsUp};
ghost use Rattle.ssz_chunk.specs.Rows.{chunk_in_row};
ghost use Rattle.ssz_value.specs.Trees.{chunks};
ghost use Rattle.ssz_merkle.specs.Frontier.{FrontierHolds, whole_pairs};
ghost use Rattle.ssz_merkle.specs.Packing.{packed_chunk};

use ssz_chunk::{Chunk, PairHash};
use ssz_merkle::{Accumulator, chunk_at};

// How many chunks the longest row has. At the top of each row some pairs are hashed singly, so rows
// are long; what makes no long row goes by shorter ones.
pub(crate) const LONGEST: usize = 512;

// And the shortest: of fewer chunks no row is made.
const SHORTEST: usize = 8;

// The height of the next row, where so many of the chunks were pushed, and how many chunks it has.
pub(crate) fn next_row(done: usize, count: usize) -> (u32, usize)
    requires whole { done % 8 ≡ 0 }
    requires room { done + 8 ≤ count }
    ensures width { result.1 ≡ 2 ^ result.0 }
    ensures long { 8 ≤ result.1 }
    ensures short { result.1 ≤ 512 }
    ensures whole { done % result.1 ≡ 0 }
    ensures next { (done + result.1) % 8 ≡ 0 }
    ensures room { done + result.1 ≤ count }
{
    let rest = count - done;
    if rest >= LONGEST && done % LONGEST == 0 {
        return (9, LONGEST);
    }
    if rest >= 64 && done % 64 == 0 {
        return (6, 64);
    }
    (3, SHORTEST)
}

// Makes a row of the chunks of the bytes, from one on.
fn fill_row(row: &mut [Chunk], bytes: &[u8], from: usize)
    requires small { from < 2 ^ 60 }
    requires short { length row.old ≤ 512 }
    ensures { (i : ℕ) → i < length row.new
        → chunk_in_row row.new i ≡ packed_chunk bytes.now (from + i) }
{
    for i in 0..row.len() {
        row[i] = chunk_at(bytes, from + i);
    }
}

// Pushes the chunks of a row, from one on, where those before it were pushed.
fn push_row_of<H: PairHash>(
    pushed: &mut Accumulator<H>,
    bytes: &[u8],
    from: usize,
    height: u32,
    row: &mut [Chunk],
    hasher: &mut H,
)
    requires small { from < 2 ^ 60 }
    requires short { length row.old ≤ 512 }
    requires count { length row.old ≡ 2 ^ height }
    requires deep { height ≤ pushed.old.depth }
    requires before { pushed.old.pushed ≡ from }
    requires whole { from % 2 ^ height ≡ 0 }
    requires room { from + 2 ^ height ≤ 2 ^ pushed.old.depth }
    ensures depth { pushed.new.depth ≡ pushed.old.depth }
    ensures pushed { pushed.new.pushed ≡ pushed.old.pushed + 2 ^ height }
    ensures holds { FrontierHolds H.pair_of (chunks from bytes.now) pushed.old
        → FrontierHolds H.pair_of (chunks (from + 2 ^ height) bytes.now) pushed.new }
    ensures counts { CountsUp (whole_pairs pushed.old.depth (from + 2 ^ height)
        - whole_pairs pushed.old.depth from) (H.pairs hasher.old) (H.pairs hasher.new) }
{
    fill_row(row, bytes, from);
    pushed.push_row(height, row, hasher);
}

/// Pushes as many of the first chunks of the bytes as make whole rows, and says how many they are.
pub(crate) fn push_chunk_rows<H: PairHash>(
    pushed: &mut Accumulator<H>,
    bytes: &[u8],
    count: usize,
    hasher: &mut H,
) -> usize
    requires empty { FrontierHolds H.pair_of [] pushed.old }
    requires small { count < 2 ^ 60 }
    requires room { count ≤ 2 ^ pushed.old.depth }
    ensures at_most { result ≤ count }
    ensures depth { pushed.new.depth ≡ pushed.old.depth }
    ensures holds { FrontierHolds H.pair_of (chunks result bytes.now) pushed.new }
    ensures counts { CountsUp (whole_pairs pushed.old.depth result)
        (H.pairs hasher.old) (H.pairs hasher.new) }
{
    let mut done = 0;
    if count < SHORTEST {
        return done;
    }
    let mut row = [Chunk::ZERO; LONGEST];
    'rows: while count - done >= SHORTEST {
        let (height, width) = next_row(done, count);
        push_row_of(pushed, bytes, done, height, &mut row[..width], hasher);
        done += width;
    }
    done
}
