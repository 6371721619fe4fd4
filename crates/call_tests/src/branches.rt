// Branches of the deposit contract and of light clients.
use super::known_branches::{
    DENEB_CHECKPOINT, DENEB_COMMITTEE, DENEB_FINALIZED, DENEB_ROOT, DEPOSITS, DEPOSITS_ROOT,
    ELECTRA_COMMITTEE, ELECTRA_FINALIZED, ELECTRA_ROOT, EMPTY, EMPTY_ROOT,
};
use ssz_said::{SszIndex, judge_branch, status};

// The index of a deposit less its number: 32 levels, and the count beside them.
const FIRST_DEPOSIT: u64 = 1 << 33;

// What is said of the first chunk at an index, with the others as its branch.
fn said(root: &[u8; 32], low: u64, high: u64, chunks: &[u8]) -> u32 {
    let index = SszIndex { low, high };
    match chunks.first_chunk::<32>() {
        Some(leaf) => judge_branch(root, leaf, index, &chunks[32..]).status(),
        None => status::NO_ROOM,
    }
}

#[test]
fn deposits_are_proved(rt: HostRuntime) {
    assert!(rt; said(&EMPTY_ROOT, FIRST_DEPOSIT, 0, &EMPTY) == status::OK);
    assert!(rt; said(&DEPOSITS_ROOT, FIRST_DEPOSIT + 2, 0, &DEPOSITS) == status::OK);
    assert!(rt; said(&DEPOSITS_ROOT, FIRST_DEPOSIT + 3, 0, &DEPOSITS) == status::UNLIKE);
    assert!(rt; said(&EMPTY_ROOT, FIRST_DEPOSIT + 2, 0, &DEPOSITS) == status::UNLIKE);
    assert!(rt; said(&DEPOSITS_ROOT, 2, 0, &DEPOSITS) == status::BAD_PROOF);
}

#[test]
fn states_are_proved(rt: HostRuntime) {
    assert!(rt; said(&DENEB_ROOT, 105, 0, &DENEB_FINALIZED) == status::OK);
    assert!(rt; said(&DENEB_ROOT, 54, 0, &DENEB_COMMITTEE) == status::OK);
    assert!(rt; said(&ELECTRA_ROOT, 169, 0, &ELECTRA_FINALIZED) == status::OK);
    assert!(rt; said(&ELECTRA_ROOT, 86, 0, &ELECTRA_COMMITTEE) == status::OK);
    assert!(rt; said(&DENEB_ROOT, 104, 0, &DENEB_FINALIZED) == status::UNLIKE);
    assert!(rt; said(&DENEB_ROOT, 169, 0, &ELECTRA_FINALIZED) == status::UNLIKE);
}

// A branch that is shorter or longer than its index says is none, whatever it leads to.
#[test]
fn branches_have_their_levels(rt: HostRuntime) {
    assert!(rt; said(&DENEB_ROOT, 52, 0, &DENEB_CHECKPOINT) == status::OK);
    assert!(rt; said(&DENEB_ROOT, 105, 0, &DENEB_CHECKPOINT) == status::BAD_PROOF);
    assert!(rt; said(&DENEB_ROOT, 105, 0, &DENEB_ROOT) == status::BAD_PROOF);
    assert!(rt; said(&DENEB_ROOT, 105, 1, &DENEB_FINALIZED) == status::BAD_PROOF);
    assert!(rt; said(&DENEB_ROOT, 105, 0, &DENEB_FINALIZED[..223]) == status::BAD_PROOF);
    assert!(rt; said(&DENEB_ROOT, 1, 0, &DENEB_ROOT) == status::OK);
    assert!(rt; said(&DENEB_ROOT, 1, 0, &ELECTRA_ROOT) == status::UNLIKE);
    assert!(rt; said(&DENEB_ROOT, 0, 0, &DENEB_ROOT) == status::BAD_PROOF);
}
