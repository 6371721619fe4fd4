use ssz_chunk::{Chunk, PairHash, XorPair};
use ssz_clash::{Clash, ClashFault, clash};
use ssz_gindex::Gindex;
use ssz_proof::{Entry, Proof};
use std::alloc::Global;
use std::test::Fail;

// The first and the last byte of a chunk; all others are 0.
type Ends = (u8, u8);

// Leaves in ascending order and nodes in descending order, by index; 0 stands for none.
type Lists = ([(u128, Ends); 2], [(u128, Ends); 3]);

const NONE: (u128, Ends) = (0, (0, 0));

// The pair of two chunks is `bytes(left[(i + 1) % 32] ^ right[i] for i in range(32))`, so that the
// first byte of the left one comes last.
const TWO: Lists = ([(2, (1, 0)), NONE], [(3, (2, 0)), NONE, NONE]);

const FOUR: Lists = ([(4, (1, 0)), (6, (3, 0))], [(7, (4, 0)), (5, (2, 0)), NONE]);

const ZEROS: Lists = ([(8, (0, 0)), NONE], [(9, (0, 0)), (5, (0, 0)), (3, (0, 0))]);

fn chunk(ends: Ends) -> Chunk {
    let mut bytes = [0; 32];
    bytes[31] = ends.1;
    bytes[0] = ends.0;
    Chunk(bytes)
}

fn entry(number: u128, ends: Ends) -> Option<Entry> {
    let index = Gindex::new(number)?;
    let chunk = chunk(ends);
    Some(Entry { index, chunk })
}

fn entries(alloc: Global, list: &[(u128, Ends)]) -> Result<Vec<Entry>, Fail> {
    let mut entries = Vec::new(alloc);
    for (number, ends) in list {
        if let Some(entry) = entry(*number, *ends) {
            entries.push(entry)?;
        }
    }
    Ok(entries)
}

fn proof(alloc: Global, lists: &Lists) -> Result<Proof, Fail> {
    let leaves = entries(alloc, &lists.0)?;
    let nodes = entries(alloc, &lists.1)?;
    Ok(Proof::new(alloc, &leaves, &nodes)?)
}

// What two proofs come to, and how many pairs are hashed for it.
fn compared(
    alloc: Global,
    first: &Lists,
    second: &Lists,
) -> Result<(Result<Clash, ClashFault>, u64), Fail> {
    let first = proof(alloc, first)?;
    let second = proof(alloc, second)?;
    let mut hasher = XorPair::new();
    let answer = clash(&first, &second, &mut hasher);
    Ok((answer, hasher.count()))
}

// A place, and the pairs of chunks below it.
type Found = (u128, (Ends, Ends), (Ends, Ends));

// Two proofs, and where they clash.
const CLASHES: [(Lists, Lists, Found); 4] = [
    (
        TWO,
        ([(2, (0, 0)), NONE], [(3, (2, 1)), NONE, NONE]),
        (1, ((1, 0), (2, 0)), ((0, 0), (2, 1))),
    ),
    // At 2 and at 3.
    (
        FOUR,
        ([(4, (0, 0)), (6, (0, 0))], [(7, (4, 3)), (5, (2, 1)), NONE]),
        (2, ((1, 0), (2, 0)), ((0, 0), (2, 1))),
    ),
    (
        FOUR,
        ([(4, (1, 0)), (6, (0, 0))], [(7, (4, 3)), (5, (2, 0)), NONE]),
        (3, ((3, 0), (4, 0)), ((0, 0), (4, 3))),
    ),
    // At 1 and at 4.
    (
        ZEROS,
        ([(8, (1, 0)), NONE], [(9, (0, 1)), (5, (5, 0)), (3, (0, 5))]),
        (1, ((0, 0), (0, 0)), ((5, 0), (0, 5))),
    ),
];

// Whether two proofs clash so.
fn is_found(alloc: Global, first: &Lists, second: &Lists, found: &Found) -> Result<bool, Fail> {
    let (number, one, other) = found;
    let wanted = Clash::Unlike {
        index: Gindex::new(*number).ok_or("an index of 0")?,
        first: (chunk(one.0), chunk(one.1)),
        second: (chunk(other.0), chunk(other.1)),
    };
    let (answer, _) = compared(alloc, first, second)?;
    Ok(answer == Ok(wanted))
}

#[test]
fn clashes(rt: HostRuntime) -> Result<(), Fail> {
    for (first, second, found) in &CLASHES {
        assert!(rt; is_found(rt.alloc(), first, second, found)?);
    }
    Ok(())
}

// Proofs whose leaves agree. Those of the second row clash at 1, in nodes alone.
const SAME: [(Lists, Lists); 2] = [
    (TWO, TWO),
    (
        ZEROS,
        ([(8, (0, 0)), NONE], [(9, (0, 0)), (5, (5, 0)), (3, (0, 5))]),
    ),
];

#[test]
fn same(rt: HostRuntime) -> Result<(), Fail> {
    for (first, second) in &SAME {
        let (answer, _) = compared(rt.alloc(), first, second)?;
        assert!(rt; answer == Ok(Clash::Same));
    }
    Ok(())
}

const OTHER: Lists = ([(2, (1, 0)), NONE], [(3, (3, 0)), NONE, NONE]);

const BESIDE: Lists = ([(3, (2, 0)), NONE], [(2, (1, 0)), NONE, NONE]);

#[test]
fn faults(rt: HostRuntime) -> Result<(), Fail> {
    let roots = ClashFault::OtherRoot(chunk((2, 1)), chunk((3, 1)));
    let (answer, _) = compared(rt.alloc(), &TWO, &OTHER)?;
    assert!(rt; answer == Err(roots));
    let (answer, count) = compared(rt.alloc(), &TWO, &BESIDE)?;
    assert!(rt; answer == Err(ClashFault::OtherIndices));
    assert!(rt; count == 0);
    Ok(())
}

// Each pair once for each proof.
#[test]
fn pairs(rt: HostRuntime) -> Result<(), Fail> {
    let (_, count) = compared(rt.alloc(), &FOUR, &FOUR)?;
    assert!(rt; count == 6);
    Ok(())
}
