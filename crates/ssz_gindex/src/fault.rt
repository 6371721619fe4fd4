use super::gindex::Gindex;
use std::alloc::{AllocError, AllocFailed};

/// Why indices have no helper indices.
#[derive(Clone, Copy, Debug, PartialEq, Eq)]
pub enum HelperFault {
    /// One is an ancestor of another, so that the lower one would not be checked. Named are the
    /// greatest index that is an ancestor of another, and the greatest of those below it.
    Nested(Gindex, Gindex),
    /// Want of memory.
    Memory,
}

impl From<AllocError> for HelperFault {
    ghost use Rattle.std.specs.Prelude.{◌≡◌};
    ghost use Rattle.ssz_gindex.specs.declared.fault.HelperFault.TheVariants.{Memory};

    ghost from_gives = { λ _ e. e ≡ Memory };

    fn from(_error: AllocError) -> Self {
        HelperFault::Memory
    }
}

impl<T: Drop> From<AllocFailed<T>> for HelperFault {
    ghost use Rattle.std.specs.Prelude.{◌≡◌};
    ghost use Rattle.ssz_gindex.specs.declared.fault.HelperFault.TheVariants.{Memory};

    ghost from_gives = { λ _ e. e ≡ Memory };

    fn from(_error: AllocFailed<T>) -> Self {
        HelperFault::Memory
    }
}
