// A session behind a pointer that C keeps, and none where the pointer is null.
ghost use Rattle.std.specs.Prelude.{◌≡◌, Option, Some, None, IsSome};
ghost use Rattle.ssz_handles.specs.declared.session.Session.{Session};
ghost use Rattle.ssz_handles.specs.Held.{session_coded, session_owns};

use super::parts::Parts;
use super::session::Session;
use std::alloc::Global;
use std::marker::{Model, Send};
use std::ptr::null_mut;

/// What a handle holds, or nothing.
#[repr(C)]
#[derive(Drop)]
pub struct HeldSession {
    at: *mut u8,
    alloc: Global,
    pub ghost value: { Option Session } by { session_coded },
}

impl Model for HeldSession {
    ghost also_owns = { λ held. session_owns held.alloc held.at held.value };
}

// It owns its box alone, so it goes to another thread as the session does.
unsafe impl Send for HeldSession {}

impl HeldSession {
    /// Nothing.
    pub fn empty(alloc: Global) -> HeldSession
        ensures { result.value ≡ None }
    {
        HeldSession {
            at: null_mut(),
            alloc,
        }
    }

    /// What the box holds.
    pub fn of(session: Box<Session, Global>) -> HeldSession
        ensures { result.value ≡ Some session.value }
    {
        HeldSession::of_parts(Parts::of(session))
    }

    /// The box again.
    pub fn into_box(self) -> Box<Session, Global>
        requires { IsSome self.value }
        ensures { Some result.value ≡ self.value }
    {
        self.into_parts().into_box()
    }

    fn of_parts(parts: Parts<Session, Global>) -> HeldSession
        ensures { result.value ≡ Some parts.value }
    {
        let Parts { ptr, alloc } = parts;
        HeldSession {
            at: ptr as *mut u8,
            alloc,
        }
    }

    fn into_parts(self) -> Parts<Session, Global>
        requires { IsSome self.value }
        ensures { Some result.value ≡ self.value }
    {
        let HeldSession { at, alloc } = self;
        Parts {
            ptr: at as *mut Session,
            alloc,
        }
    }
}
