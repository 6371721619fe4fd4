// What a slice of C is.
ghost use Rattle.std.specs.Arc.{arc_value};
ghost use Rattle.std.specs.Prelude.{◌≡◌, ◌<◌, ◌^◌, length, None};
ghost use Rattle.ssz_schema.specs.Unfolding.{type_of};
ghost use Rattle.ssz_value.specs.Faults.{first_fault};

use super::library::SharedSchema;
use ssz_bytes::ByteRun;
use ssz_schema::TypeId;
use std::alloc::Global;
use std::sync::Arc;

/// Bytes that encode a value of a type: a copy, with the type's schema, which is shared.
#[derive(Drop)]
pub struct CheckedBytes {
    pub shared: Arc<SharedSchema, Global>,
    pub id: TypeId,
    pub bytes: ByteRun,
    pub ghost known: { id < length (arc_value shared).schema.trees },
    pub ghost short: { length bytes < 2 ^ 32 },
    pub ghost faultless: { first_fault (type_of (arc_value shared).schema id) 0 bytes ≡ None },
}
