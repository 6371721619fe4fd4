// What a line of a session came to.
ghost use Rattle.std.specs.Prelude.{◌≡◌};
ghost use Rattle.ssz_handles.specs.Session.{at_line, session_fault};

use ssz_said::{SszFault, status};

/// What a line came to.
#[derive(Clone, Copy, Debug, PartialEq, Eq)]
pub enum Ran {
    /// It says nothing.
    Quiet,
    /// Its statement was done.
    Done,
    /// It was refused, as a line that is no statement is.
    Refused,
    /// Its statement reads a file.
    Unread,
    /// Its statement writes a file.
    Unwritten,
    /// It is too long.
    TooLong,
    /// Want of memory.
    Memory,
}

// A status with the number of a line.
fn at_line(status: u32, line: u64) -> SszFault
    ensures { result ≡ at_line status line }
{
    SszFault {
        status,
        code: 0,
        position: line,
    }
}

impl Ran {
    /// How a call ends whose line of this number came to it.
    pub fn fault(self, line: u64) -> SszFault
        ensures { result ≡ session_fault line self }
    {
        match self {
            Ran::Quiet => SszFault::none(),
            Ran::Done => SszFault::none(),
            Ran::Refused => at_line(status::REFUSED, line),
            Ran::Unread => at_line(status::NO_READ, line),
            Ran::Unwritten => at_line(status::NO_WRITE, line),
            Ran::TooLong => at_line(status::TOO_LONG, line),
            Ran::Memory => at_line(status::NO_MEMORY, line),
        }
    }
}
