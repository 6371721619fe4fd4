// What a handle of C holds.
ghost use Rattle.std.specs.Arc.{arc_value};
ghost use Rattle.std.specs.Prelude.{ℕ, ◌<◌, length, slice_index_or};
ghost use Rattle.ssz_typed.specs.Numbers.{EachOnce};

use ssz_chunk::{ShaPair, ZeroTable};
use ssz_schema::{Schema, TypeId};
use std::alloc::Global;
use std::sync::Arc;

/// A schema in memory once, whatever handles and threads ask it: nothing in it changes.
#[derive(Drop)]
pub struct SharedSchema {
    pub schema: Schema,
    pub zeros: ZeroTable<ShaPair>,
}

/// A schema, and the types of it that have a number in C: those that were asked for by name, in
/// order.
#[derive(Drop)]
pub struct Library {
    pub shared: Arc<SharedSchema, Global>,
    pub found: Vec<TypeId>,
    pub ghost known: { (k : ℕ) → k < length found.items
        → slice_index_or found.items k 0 < length (arc_value shared).schema.trees },
    pub ghost once: { EachOnce found.items },
}
