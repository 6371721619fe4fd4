// Sessions by their lines, and by statements that take and give bytes.
ghost use Rattle.std.specs.Prelude.{IfOk};
ghost use Rattle.ssz_said.specs.Statements.{HasShortLiteral};

use super::given::{TYPES, ZEROS};
use ssz_handles::{Ran, Session};
use ssz_said::{
    SszFault, SszIndex, encoding_of, judge_branch, proving, root_of, statements, status,
};
use ssz_script::Statement;
use ssz_typed::Library;
use std::alloc::Global;
use std::test::Fail;

#[test]
fn a_session_replies(rt: HostRuntime) -> Result<(), Fail> {
    let mut session = Session::start(rt.alloc(), TYPES)?;
    assert!(rt; session.run(rt.alloc(), b"new V P") == Ran::Done);
    assert!(rt; session.run(rt.alloc(), b"load W P f") == Ran::Unread);
    assert!(rt; session.run(rt.alloc(), b"list") == Ran::Done);
    assert!(rt; session.lines == 3);
    assert!(rt; session.reply.as_slice() == b"list V\n".as_slice());
    Ok(())
}

// How a call ends whose arguments say a statement: its status, and the code of its fault.
pub fn ended(session: &mut Session, said: Result<Statement, SszFault>) -> (u32, u32)
    requires { IfOk said HasShortLiteral }
{
    match session.answer(said) {
        Ok(_) => (status::OK, 0),
        Err(fault) => (fault.status, fault.code),
    }
}

fn loaded(alloc: Global, session: &mut Session, name: &[u8], bytes: &[u8]) -> (u32, u32) {
    ended(session, statements::lit(alloc, name, b"P", bytes))
}

// Whether a value is taken, once under a name, and bytes that encode none are not.
fn loads(alloc: Global, session: &mut Session) -> bool {
    loaded(alloc, session, b"V", &[0; 16]) == (status::OK, 0)
        && loaded(alloc, session, b"V", &[0; 16]) == (status::REFUSED, 4)
        && loaded(alloc, session, b"W", &[0; 15]) == (status::INVALID, 1)
        && loaded(alloc, session, b"a b", &[0; 16]) == (status::SYNTAX, 0)
}

// The root of V; zeros where there is none.
pub fn root_of_v(alloc: Global, session: &mut Session) -> [u8; 32] {
    match root_of(session.answer(statements::root(alloc, b"V"))) {
        Ok(root) => root,
        Err(_) => [0; 32],
    }
}

// Whether the encoding of V is this one.
fn is_v(alloc: Global, session: &mut Session, wanted: &[u8]) -> bool {
    match encoding_of(session.answer(statements::bytes(alloc, b"V", b"/"))) {
        Ok(bytes) => bytes.as_slice() == wanted,
        Err(_) => false,
    }
}

// Whether b of V is set, and read where it stands in the whole.
fn sets(alloc: Global, session: &mut Session) -> bool {
    let wanted = [0, 0, 0, 0, 0, 0, 0, 0, 7, 7, 7, 7, 7, 7, 7, 7];
    let set = statements::set(alloc, b"V", b"/b", &[7; 8]);
    ended(session, set) == (status::OK, 0) && is_v(alloc, session, &wanted)
}

// The leaf of b with eight sevens.
const SEVENS: [u8; 32] = [
    7, 7, 7, 7, 7, 7, 7, 7, 0, 0, 0, 0, 0, 0, 0, 0, 0, 0, 0, 0, 0, 0, 0, 0, 0, 0, 0, 0, 0, 0, 0, 0,
];

// Whether the chunks are the leaf of b and its branch, which leads from 3 to the root and from no
// other place.
fn is_branch(chunks: &[u8], root: &[u8; 32]) -> bool {
    if chunks.len() != 64 {
        return false;
    }
    let b = SszIndex { low: 3, high: 0 };
    let a = SszIndex { low: 2, high: 0 };
    chunks.starts_with(SEVENS.as_slice())
        && judge_branch(root, &SEVENS, b, &chunks[32..]).status() == status::OK
        && judge_branch(root, &SEVENS, a, &chunks[32..]).status() == status::UNLIKE
}

// Whether b of V is proved.
fn proves(alloc: Global, session: &mut Session) -> bool {
    let root = root_of_v(alloc, session);
    let answer = session.answer(proving::prove(alloc, b"V", b"/b"));
    match proving::branch_of(alloc, answer) {
        Ok(chunks) => is_branch(chunks.as_slice(), &root),
        Err(_) => false,
    }
}

// Whether nodes are given up that no version needs any more.
fn gives_up(alloc: Global, session: &mut Session) -> bool {
    let before = session.engine.node_count();
    ended(session, statements::fork(alloc, b"V", b"W")) == (status::OK, 0)
        && ended(session, statements::drop(alloc, b"V")) == (status::OK, 0)
        && ended(session, statements::compact()) == (status::OK, 0)
        && session.engine.node_count() < before
}

#[test]
fn a_session_takes_and_gives_bytes(rt: HostRuntime) -> Result<(), Fail> {
    let mut session = Session::start(rt.alloc(), TYPES)?;
    assert!(rt; loads(rt.alloc(), &mut session));
    assert!(rt; root_of_v(rt.alloc(), &mut session) == ZEROS);
    assert!(rt; sets(rt.alloc(), &mut session));
    assert!(rt; proves(rt.alloc(), &mut session));
    assert!(rt; gives_up(rt.alloc(), &mut session));
    Ok(())
}

// Whether a session over a schema that is given up goes on.
#[test]
fn a_session_starts_on_a_schema(rt: HostRuntime) -> Result<(), Fail> {
    let library = Library::read(rt.alloc(), TYPES)?;
    let mut session = Session::boxed_on(rt.alloc(), library.schema())?;
    drop(library);
    assert!(rt; loaded(rt.alloc(), &mut session, b"V", &[0; 16]) == (status::OK, 0));
    assert!(rt; root_of_v(rt.alloc(), &mut session) == ZEROS);
    Ok(())
}
