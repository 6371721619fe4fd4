use std::alloc::AllocError;

/// Why a statement was not done.
#[derive(Clone, Copy, Debug, PartialEq, Eq)]
pub enum EngineFault {
    /// A file could not be read.
    Read,
    /// A file could not be written.
    Write,
    /// There was no memory.
    Memory,
}

impl From<AllocError> for EngineFault {
    ghost use Rattle.std.specs.Prelude.{◌≡◌};
    ghost use Rattle.ssz_decisions.specs.declared.fault.EngineFault.TheVariants.{Memory};

    ghost from_gives = { λ _ fault. fault ≡ Memory };

    fn from(_: AllocError) -> Self {
        EngineFault::Memory
    }
}
