// Sessions whose versions are edited and proved together.
use super::given::FORMS;
use super::sessions::{ended, root_of_v};
use ssz_handles::Session;
use ssz_said::{
    SszEntry, SszIndex, gindex_of, judge_entries, len_of, prove_all, proving, statements, status,
    text_of,
};
use std::alloc::Global;
use std::test::Fail;

// How many elements the list of a version has; 99 where it is not shown.
fn len(alloc: Global, session: &mut Session, name: &[u8]) -> u64 {
    len_of(session.answer(statements::len(alloc, name, b"/l"))).unwrap_or(99)
}

// Whether the list of V has one element after two and one less.
fn grows(alloc: Global, session: &mut Session) -> bool {
    ended(session, statements::append(alloc, b"V", b"/l", &[1; 8])) == (status::OK, 0)
        && ended(session, statements::append(alloc, b"V", b"/l", &[2; 8])) == (status::OK, 0)
        && ended(session, statements::pop(alloc, b"V", b"/l")) == (status::OK, 0)
        && len(alloc, session, b"V") == 1
}

// Whether the text of the union of V is this one.
fn is_shown(alloc: Global, session: &mut Session, wanted: &[u8]) -> bool {
    match text_of(session.answer(statements::json(alloc, b"V", b"/u"))) {
        Ok(text) => text.as_slice() == wanted,
        Err(_) => false,
    }
}

// Whether the union of V has its option's default, and then 9.
fn chooses(alloc: Global, session: &mut Session) -> bool {
    ended(session, statements::choose_default(alloc, b"V", b"/u", 1)) == (status::OK, 0)
        && is_shown(alloc, session, b"[1,\"0\"]")
        && ended(session, statements::choose(alloc, b"V", b"/u", 1, &[9])) == (status::OK, 0)
        && is_shown(alloc, session, b"[1,\"9\"]")
}

// Whether W of the type Q has the list of V.
fn upgrades(alloc: Global, session: &mut Session) -> bool {
    ended(session, statements::upgrade(alloc, b"V", b"W", b"Q")) == (status::OK, 0)
        && len(alloc, session, b"W") == 1
}

// The index of the list of R.
fn list_index(alloc: Global, session: &mut Session) -> SszIndex {
    match gindex_of(session.answer(statements::gindex(alloc, b"R", b"/l"))) {
        Ok(index) => index,
        Err(_) => SszIndex { low: 0, high: 0 },
    }
}

// Whether both entries lead to the root, one does not, and both lead to no other.
fn are_proved(alloc: Global, entries: &[SszEntry], root: &[u8; 32]) -> bool {
    if entries.len() != 2 {
        return false;
    }
    judge_entries(alloc, root, entries, &[]).status() == status::OK
        && judge_entries(alloc, root, &entries[..1], &[]).status() == status::BAD_PROOF
        && judge_entries(alloc, &[0; 32], entries, &[]).status() == status::UNLIKE
}

// Whether the list and the union of V are proved together.
fn proves_both(alloc: Global, session: &mut Session) -> bool {
    let root = root_of_v(alloc, session);
    let list = list_index(alloc, session);
    let union = SszIndex { low: 3, high: 0 };
    let answer = session.answer(prove_all(alloc, b"V", &[union, list]));
    let Ok(proof) = proving::proof_of(alloc, answer) else {
        return false;
    };
    let shown = proving::all_shown(alloc, &proof);
    drop(proof);
    match shown {
        Ok(entries) => list.low == 2 && are_proved(alloc, entries.as_slice(), &root),
        Err(_) => false,
    }
}

#[test]
fn a_session_is_edited_and_proved(rt: HostRuntime) -> Result<(), Fail> {
    let mut session = Session::start(rt.alloc(), FORMS)?;
    assert!(rt; ended(&mut session, statements::new(rt.alloc(), b"V", b"R")) == (status::OK, 0));
    assert!(rt; grows(rt.alloc(), &mut session));
    assert!(rt; chooses(rt.alloc(), &mut session));
    assert!(rt; upgrades(rt.alloc(), &mut session));
    assert!(rt; proves_both(rt.alloc(), &mut session));
    Ok(())
}
