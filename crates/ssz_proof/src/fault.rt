ghost use Rattle.std.specs.Prelude.{◌≡◌};
ghost use Rattle.ssz_proof.specs.declared.fault.ProofFault.TheVariants.{Memory};

use std::alloc::{AllocError, AllocFailed};

/// Why there is no proof.
#[derive(Clone, Copy, Debug, PartialEq, Eq)]
pub enum ProofFault {
    /// The lists or the text are no multiproof.
    BadProof,
    /// There was no memory.
    Memory,
}

impl From<AllocError> for ProofFault {
    ghost from_gives = { λ _ e. e ≡ Memory };

    fn from(_error: AllocError) -> Self {
        ProofFault::Memory
    }
}

impl<T: Drop> From<AllocFailed<T>> for ProofFault {
    ghost from_gives = { λ _ e. e ≡ Memory };

    fn from(_error: AllocFailed<T>) -> Self {
        ProofFault::Memory
    }
}
