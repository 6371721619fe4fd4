use super::path_fault::PathFault;
use std::alloc::{AllocError, AllocFailed};

/// Why a value is not edited: the first of these, in this order, that holds.
#[derive(Clone, Copy, Debug, PartialEq, Eq)]
pub enum EditFault {
    /// The path does not fit the type.
    BadPath,
    /// The path fits, and leads past the length of a list or bitlist, or to an option that is not
    /// the present one.
    Absent,
    /// The part is not of the form that the edit changes, or is a length or a selector.
    NotThat,
    /// The list or bitlist has as many elements as its limit.
    Full,
    /// The list or bitlist has no element.
    Empty,
    /// The selector is no option's number.
    BadSelector,
    /// Want of memory.
    Memory,
}

impl From<PathFault> for EditFault {
    ghost use Rattle.std.specs.Prelude.{◌≡◌};
    ghost use Rattle.ssz_value.specs.Edits.{edit_fault_of};

    ghost from_gives = { λ fault e. e ≡ edit_fault_of fault };

    fn from(fault: PathFault) -> Self {
        match fault {
            PathFault::BadPath => EditFault::BadPath,
            PathFault::Absent => EditFault::Absent,
        }
    }
}

impl From<AllocError> for EditFault {
    ghost use Rattle.std.specs.Prelude.{◌≡◌};
    ghost use Rattle.ssz_value.specs.declared.edit_fault.EditFault.TheVariants.{Memory};

    ghost from_gives = { λ _ e. e ≡ Memory };

    fn from(_error: AllocError) -> Self {
        EditFault::Memory
    }
}

impl<T: Drop> From<AllocFailed<T>> for EditFault {
    ghost use Rattle.std.specs.Prelude.{◌≡◌};
    ghost use Rattle.ssz_value.specs.declared.edit_fault.EditFault.TheVariants.{Memory};

    ghost from_gives = { λ _ e. e ≡ Memory };

    fn from(_error: AllocFailed<T>) -> Self {
        EditFault::Memory
    }
}
