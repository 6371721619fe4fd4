// A handle of C for a session.
ghost use Rattle.std.specs.Prelude.{◌≡◌, Some, None, IfOk, option_map};
ghost use Rattle.ssz_said.specs.Statements.{HasShortLiteral};
ghost use Rattle.ssz_handles.specs.Answering.{DoesIn};
ghost use Rattle.ssz_handles.specs.Held.{live_of};
ghost use Rattle.ssz_said.specs.declared.status.TheConstants.{SESSION_MARK};

use super::held_session::HeldSession;
use super::session::Session;
use ssz_said::{SszFault, status};
use ssz_script::{Reply, Statement};
use std::alloc::Global;
use std::mem::replace;

/// A session that C holds, or none: zeros stand for none.
#[repr(C)]
#[derive(Drop)]
pub struct SszSession {
    /// Its kind's mark where it holds one; whatever else stands here, it holds none.
    pub live: u64,
    /// The session.
    pub held: HeldSession,
    pub ghost honest: { live ≡ live_of SESSION_MARK held.value },
}

impl SszSession {
    /// Takes what the handle holds, which then holds nothing.
    pub fn take(&mut self, alloc: Global) -> Option<Box<Session, Global>>
        ensures value { option_map (λ session. session.value) result ≡ self.old.held.value }
        ensures empty { self.new.held.value ≡ None }
    {
        if self.live != status::SESSION_MARK {
            return None;
        }
        let empty = SszSession {
            live: 0,
            held: HeldSession::empty(alloc),
        };
        let SszSession { live: _, held } = replace(self, empty);
        Some(held.into_box())
    }

    /// Gives the handle what it holds from now on.
    pub fn put(&mut self, session: Box<Session, Global>)
        ensures { self.new.held.value ≡ Some session.value }
    {
        *self = SszSession {
            live: status::SESSION_MARK,
            held: HeldSession::of(session),
        };
    }

    /// Does the statement that arguments say, where they say one, in the session that is held.
    pub fn answer(
        &mut self,
        alloc: Global,
        said: Result<Statement, SszFault>,
    ) -> Result<Reply, SszFault>
        requires { IfOk said HasShortLiteral }
        ensures { DoesIn said self.old.held.value self.new.held.value result }
    {
        let Some(mut session) = self.take(alloc) else {
            drop(said);
            return Err(SszFault::of(status::NO_HANDLE));
        };
        let answer = session.answer(said);
        self.put(session);
        answer
    }
}
