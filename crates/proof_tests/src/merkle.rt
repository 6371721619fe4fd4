ghost use Rattle.std.specs.Prelude.{◌^◌, ◌≤◌, length};
ghost use Rattle.ssz_chunk.specs.declared.TheConstants.{LEVELS};

use super::chunks::{beginning, chunk};
use ssz_chunk::{Chunk, PairHash, ShaPair, XorPair, ZeroTable};
use ssz_merkle::{Accumulator, chunk_at};

// The root of the full tree of this depth of chunks that begin with these bytes.
fn root_of<H: PairHash>(depth: u32, firsts: &[u8], zeros: &ZeroTable<H>, hasher: &mut H) -> Chunk
    requires depth { depth ≤ LEVELS }
    requires few { length firsts.now ≤ 2 ^ depth }
{
    let mut stack = Accumulator::new(zeros, depth);
    for first in firsts {
        stack.push(&beginning(*first), hasher);
    }
    stack.finish(hasher)
}

// Expected values: hashlib of Python, over the definition of merkleize in simple-serialize.md.
#[test]
fn sha_roots(rt: HostRuntime) {
    let mut hasher = ShaPair::new();
    let zeros = ZeroTable::new(&mut hasher);
    let full = chunk(
        0xbfe3c665d2e561f13b30606c580cb703,
        0xb2041287e212ade110f0bfd8563e21bb,
    );
    assert!(rt; root_of(2, &[1, 2, 3, 4], &zeros, &mut hasher) == full);
    let part = chunk(
        0xb26528272e5e43113dbd86763ea69f18,
        0x8495bec3a75e185b327ad84ba0a9c881,
    );
    assert!(rt; root_of(3, &[1, 2, 3, 4, 5], &zeros, &mut hasher) == part);
    let deep = chunk(
        0x1612d391d7ffd394c63097a02bc7bc9c,
        0x341dae351d9b8dbe062b83b4d48df986,
    );
    assert!(rt; root_of(126, &[1], &zeros, &mut hasher) == deep);
    assert!(rt; root_of(0, &[9], &zeros, &mut hasher) == beginning(9));
}

// The root of the deposit contract without deposits (mainnet): 32 levels, then the length.
#[test]
fn sha_root_of_no_deposits(rt: HostRuntime) {
    let mut hasher = ShaPair::new();
    let zeros = ZeroTable::new(&mut hasher);
    let empty = root_of(32, &[], &zeros, &mut hasher);
    let deposits = chunk(
        0xd70a234731285c6804c2a4f56711ddb8,
        0xc82c99740f207854891028af34e27e5e,
    );
    assert!(rt; hasher.pair(&empty, &Chunk::ZERO) == deposits);
}

// Under XorPair the first byte of a chunk goes back by one, round the end, at each level where the
// chunk is to the left.
#[test]
fn xor_roots(rt: HostRuntime) {
    let mut hasher = XorPair::new();
    let zeros = ZeroTable::new(&mut hasher);
    // List[uint8, 2^40] of one byte 05: 35 levels, then the length.
    let content = root_of(35, &[5], &zeros, &mut hasher);
    assert!(rt; hasher.pair(&content, &beginning(1)) == chunk(1 << 120, 5 << 24));
    assert!(rt; hasher.count() == 126 + 36);
    let five = root_of(3, &[1, 2, 4, 8, 16], &zeros, &mut hasher);
    assert!(rt; five == chunk(0, 0x011608));
    assert!(rt; hasher.count() == 126 + 36 + 6);
}

#[test]
fn chunks_of_bytes(rt: HostRuntime) {
    let mut bytes = [7; 33];
    bytes[32] = 9;
    assert!(rt; chunk_at(&bytes, 0) == Chunk([7; 32]));
    assert!(rt; chunk_at(&bytes, 1) == beginning(9));
    assert!(rt; chunk_at(&bytes, 2) == Chunk::ZERO);
    assert!(rt; chunk_at(&bytes[..32], 1) == Chunk::ZERO);
    assert!(rt; chunk_at(&[], usize::MAX) == Chunk::ZERO);
}
