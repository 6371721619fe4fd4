// Why a call did not do what it was asked.
ghost use Rattle.std.specs.Prelude.{◌≡◌};
ghost use Rattle.ssz_said.specs.Outcome.{done, refused, invalid};

use super::status;
use ssz_bytes::Fault;
use std::alloc::{AllocError, AllocFailed};

/// A status, and of a fault of bytes or of a schema its code and where it lies; else two zeros.
#[repr(C)]
#[derive(Clone, Copy, Debug, PartialEq, Eq)]
pub struct SszFault {
    /// One of the statuses.
    pub status: u32,
    /// The number of the fault's code.
    pub code: u32,
    /// The byte of the input, or the number of the definition.
    pub position: u64,
}

impl SszFault {
    /// There is none.
    pub fn none() -> Self
        ensures { result ≡ done }
    {
        SszFault::of(status::OK)
    }

    /// A status alone.
    pub fn of(status: u32) -> Self
        ensures { result ≡ refused status }
    {
        SszFault {
            status,
            code: 0,
            position: 0,
        }
    }

    /// The first fault of bytes.
    pub fn invalid(fault: Fault) -> Self
        ensures { result ≡ invalid fault }
    {
        SszFault {
            status: status::INVALID,
            code: u32::from(fault.code),
            position: fault.position,
        }
    }
}

impl From<AllocError> for SszFault {
    ghost use Rattle.std.specs.Prelude.{◌≡◌};
    ghost use Rattle.ssz_said.specs.declared.status.TheConstants.{NO_MEMORY};
    ghost use Rattle.ssz_said.specs.Outcome.{refused};

    ghost from_gives = { λ _ e. e ≡ refused NO_MEMORY };

    fn from(_error: AllocError) -> Self {
        SszFault::of(status::NO_MEMORY)
    }
}

impl<T: Drop> From<AllocFailed<T>> for SszFault {
    ghost use Rattle.std.specs.Prelude.{◌≡◌};
    ghost use Rattle.ssz_said.specs.declared.status.TheConstants.{NO_MEMORY};
    ghost use Rattle.ssz_said.specs.Outcome.{refused};

    ghost from_gives = { λ _ e. e ≡ refused NO_MEMORY };

    fn from(_error: AllocFailed<T>) -> Self {
        SszFault::of(status::NO_MEMORY)
    }
}
