// What handles hold, and that they may go to other threads.
use super::given::TYPES;
use ssz_handles::{
    Held, HeldSession, HeldSlice, Session, SszSchema, SszSession, SszSlice, reading,
};
use ssz_said::{SszFault, statements, status};
use std::alloc::Global;
use std::test::Fail;

fn no_schema(alloc: Global) -> SszSchema {
    SszSchema {
        live: 0,
        held: Held::empty(alloc),
    }
}

fn no_session(alloc: Global) -> SszSession {
    SszSession {
        live: 0,
        held: HeldSession::empty(alloc),
    }
}

fn no_slice(alloc: Global) -> SszSlice {
    SszSlice {
        live: 0,
        held: HeldSlice::empty(alloc),
    }
}

#[test]
fn empty_handles_hold_nothing(rt: HostRuntime) {
    assert!(rt; no_schema(rt.alloc()).take(rt.alloc()).is_none());
    assert!(rt; no_session(rt.alloc()).take(rt.alloc()).is_none());
    assert!(rt; no_slice(rt.alloc()).take(rt.alloc()).is_none());
}

// Whether the handle has P, and then nothing any more.
fn has_p_once(alloc: Global, handle: &mut SszSchema) -> bool {
    let Some(mut library) = handle.take(alloc) else {
        return false;
    };
    let is_found = library.number_of(b"P").is_ok();
    drop(library);
    is_found && handle.take(alloc).is_none()
}

#[test]
fn a_schema_is_held_once(rt: HostRuntime) -> Result<(), Fail> {
    let mut handle = no_schema(rt.alloc());
    handle.put(reading::boxed(rt.alloc(), TYPES)?);
    assert!(rt; has_p_once(rt.alloc(), &mut handle));
    Ok(())
}

// How a statement of a handle ends.
fn asked(alloc: Global, handle: &mut SszSession) -> SszFault {
    match handle.answer(alloc, statements::new(alloc, b"V", b"P")) {
        Ok(_) => SszFault::none(),
        Err(fault) => fault,
    }
}

#[test]
fn a_session_is_held(rt: HostRuntime) -> Result<(), Fail> {
    let mut handle = no_session(rt.alloc());
    assert!(rt; asked(rt.alloc(), &mut handle) == SszFault::of(status::NO_HANDLE));
    handle.put(Session::boxed(rt.alloc(), TYPES)?);
    assert!(rt; asked(rt.alloc(), &mut handle) == SszFault::none());
    assert!(rt; asked(rt.alloc(), &mut handle).status == status::REFUSED);
    Ok(())
}

// What may go to another thread.
fn crosses<T: Send>() {}

#[test]
fn handles_cross_threads() {
    crosses::<SszSchema>();
    crosses::<SszSession>();
    crosses::<SszSlice>();
}
