use std::alloc::{AllocError, AllocFailed};

/// Why there is no draft.
#[derive(Clone, Copy, Debug, PartialEq, Eq)]
pub(crate) enum NoDraft {
    /// The text of no value of the type goes on so.
    Form,
    /// Want of memory.
    Memory,
}

impl From<AllocError> for NoDraft {
    ghost use Rattle.std.specs.Prelude.{◌≡◌};
    ghost use Rattle.ssz_json_draft.specs.declared.fault.NoDraft.TheVariants.{Memory};

    ghost from_gives = { λ _ e. e ≡ Memory };

    fn from(_error: AllocError) -> Self {
        NoDraft::Memory
    }
}

impl<T: Drop> From<AllocFailed<T>> for NoDraft {
    ghost use Rattle.std.specs.Prelude.{◌≡◌};
    ghost use Rattle.ssz_json_draft.specs.declared.fault.NoDraft.TheVariants.{Memory};

    ghost from_gives = { λ _ e. e ≡ Memory };

    fn from(_error: AllocFailed<T>) -> Self {
        NoDraft::Memory
    }
}
