use super::chunks::chunk;
use ssz_chunk::{PairHash, ShaPair, XorPair, ZeroTable};

// The depth, and the two halves of the root. Z1 and Z2 are zero hashes of Ethereum's deposit
// contract; Python's hashlib gives all of these.
const ZERO_ROOTS: [(u32, u128, u128); 5] = [
    (0, 0, 0),
    (
        1,
        0xf5a5fd42d16a20302798ef6ed309979b,
        0x43003d2320d9f0e8ea9831a92759fb4b,
    ),
    (
        2,
        0xdb56114e00fdd4c1f85c892bf35ac9a8,
        0x9289aaecb1ebd0a96cde606a748b5d71,
    ),
    (
        63,
        0xecc502c9b1145f3950cb7d3e3842446f,
        0x81a4f0df1df537cee139ef64ea984bd9,
    ),
    (
        126,
        0xad484a007384e0b23f629cd335620edb,
        0xae313dc07a31ca58fe1d97fac2ca0b55,
    ),
];

#[test]
fn zero_roots(rt: HostRuntime) {
    let mut hasher = ShaPair::new();
    let zeros = ZeroTable::new(&mut hasher);
    assert!(rt; hasher.count() == 126);
    for (depth, high, low) in ZERO_ROOTS {
        assert!(rt; *zeros.get(depth) == chunk(high, low), "at {depth}");
    }
}

#[test]
fn xor_pair(rt: HostRuntime) {
    let left = chunk(
        0x000102030405060708090a0b0c0d0e0f,
        0x101112131415161718191a1b1c1d1e1f,
    );
    let right = chunk(
        0x6465666768696a6b6c6d6e6f70717273,
        0x7475767778797a7b7c7d7e7f80818283,
    );
    // Python: bytes(left[(i + 1) % 32] ^ right[i] for i in range(32))
    let made = chunk(
        0x656765636d6f6d63656765637d7f7d63,
        0x656765636d6f6d63656765639d9f9d83,
    );
    let mut hasher = XorPair::new();
    assert!(rt; hasher.pair(&left, &right) == made);
    assert!(rt; hasher.count() == 1);
}
