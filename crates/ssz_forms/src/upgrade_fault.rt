use std::alloc::{AllocError, AllocFailed};

/// Why a value is not upgraded.
#[derive(Clone, Copy, Debug, PartialEq, Eq)]
pub enum UpgradeFault {
    /// One of the two types is no container.
    NotContainer,
    /// Want of memory.
    Memory,
}

impl From<AllocError> for UpgradeFault {
    ghost use Rattle.std.specs.Prelude.{◌≡◌};
    ghost use Rattle.ssz_forms.specs.declared.upgrade_fault.UpgradeFault.TheVariants.{Memory};

    ghost from_gives = { λ _ e. e ≡ Memory };

    fn from(_error: AllocError) -> Self {
        UpgradeFault::Memory
    }
}

impl<T: Drop> From<AllocFailed<T>> for UpgradeFault {
    ghost use Rattle.std.specs.Prelude.{◌≡◌};
    ghost use Rattle.ssz_forms.specs.declared.upgrade_fault.UpgradeFault.TheVariants.{Memory};

    ghost from_gives = { λ _ e. e ≡ Memory };

    fn from(_error: AllocFailed<T>) -> Self {
        UpgradeFault::Memory
    }
}
