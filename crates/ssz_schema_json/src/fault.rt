use ssz_schema::SchemaFault;
use std::alloc::{AllocError, AllocFailed};

/// Why the bytes of a file give no schema.
#[derive(Clone, Copy, Debug, PartialEq, Eq)]
pub enum SchemaRead {
    /// S1: the bytes are no JSON text in UTF-8.
    NotJson,
    /// S2: the JSON is no document of a format and definitions.
    Shape,
    /// S3 to S14: the first fault of the definitions.
    Def {
        /// Which definition it is in, counted from 0.
        number: usize,
        /// What is wrong with it.
        fault: SchemaFault,
    },
    /// Want of memory.
    Memory,
}

impl From<AllocError> for SchemaRead {
    ghost use Rattle.std.specs.Prelude.{◌≡◌};
    ghost use Rattle.ssz_schema_json.specs.declared.fault.SchemaRead.TheVariants.{Memory};

    ghost from_gives = { λ _ e. e ≡ Memory };

    fn from(_error: AllocError) -> Self {
        SchemaRead::Memory
    }
}

impl<T: Drop> From<AllocFailed<T>> for SchemaRead {
    ghost use Rattle.std.specs.Prelude.{◌≡◌};
    ghost use Rattle.ssz_schema_json.specs.declared.fault.SchemaRead.TheVariants.{Memory};

    ghost from_gives = { λ _ e. e ≡ Memory };

    fn from(_error: AllocFailed<T>) -> Self {
        SchemaRead::Memory
    }
}
