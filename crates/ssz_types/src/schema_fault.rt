ghost use Rattle.std.specs.Prelude.{◌≡◌};
ghost use Rattle.ssz_types.specs.FaultCodes.{schema_code};

use std::alloc::{AllocError, AllocFailed};

/// What is wrong with a definition.
#[derive(Clone, Copy, Debug, PartialEq, Eq)]
pub enum SchemaFault {
    /// S3: a defined name or a field's name is no name.
    BadName,
    /// S4: the defined name is built-in or defined before.
    NameTaken,
    /// S5: a name is neither built-in nor defined before.
    UnknownName,
    /// S6: a vector or bitvector of length 0.
    ZeroLength,
    /// S7: a container without fields.
    EmptyContainer,
    /// S8: None at an option other than the first.
    NonePlace,
    /// S9: a union of no option, or of more than 128.
    UnionSize,
    /// S10: a field has the name of an earlier field.
    FieldTaken,
    /// S11: the limit of a list or bitlist is above the format's greatest.
    LimitTooBig,
    /// S12: types nest deeper than 32.
    Nest,
    /// S13: more levels than the format allows.
    Levels,
    /// S14: the encoding of the type's default is longer than 2^24 bytes.
    Size,
}

impl SchemaFault {
    /// The number of the fault's code: 3 for S3, and so on up to 14 for S14.
    pub fn code(self) -> u8
        ensures { result ≡ schema_code self }
    {
        match self {
            SchemaFault::BadName => 3,
            SchemaFault::NameTaken => 4,
            SchemaFault::UnknownName => 5,
            SchemaFault::ZeroLength => 6,
            SchemaFault::EmptyContainer => 7,
            SchemaFault::NonePlace => 8,
            SchemaFault::UnionSize => 9,
            SchemaFault::FieldTaken => 10,
            SchemaFault::LimitTooBig => 11,
            SchemaFault::Nest => 12,
            SchemaFault::Levels => 13,
            SchemaFault::Size => 14,
        }
    }
}

/// Why a definition is not added.
#[derive(Clone, Copy, Debug, PartialEq, Eq)]
pub enum SchemaError {
    /// The first fault of the definition.
    Fault(SchemaFault),
    /// Want of memory.
    Memory,
}

impl From<AllocError> for SchemaError {
    ghost use Rattle.std.specs.Prelude.{◌≡◌};
    ghost use Rattle.ssz_types.specs.declared.schema_fault.SchemaError.TheVariants.{Memory};

    ghost from_gives = { λ _ e. e ≡ Memory };

    fn from(_error: AllocError) -> Self {
        SchemaError::Memory
    }
}

impl<T: Drop> From<AllocFailed<T>> for SchemaError {
    ghost use Rattle.std.specs.Prelude.{◌≡◌};
    ghost use Rattle.ssz_types.specs.declared.schema_fault.SchemaError.TheVariants.{Memory};

    ghost from_gives = { λ _ e. e ≡ Memory };

    fn from(_error: AllocFailed<T>) -> Self {
        SchemaError::Memory
    }
}
