ghost use Rattle.std.specs.Prelude.{◌≡◌, ◌<◌, length, option_map, IfSome, OnErr};
ghost use Rattle.ssz_schema.specs.Unfolding.{type_of};
ghost use Rattle.ssz_schema.specs.Paths.{path_type};
ghost use Rattle.ssz_value.specs.Standing.{value_of, IsValue};
ghost use Rattle.ssz_value.specs.Suiting.{IsElement, IsInner};
ghost use Rattle.ssz_value.specs.Edits.{set_at, append_at, pop_at, choose_at};
ghost use Rattle.ssz_plain.specs.Told.{edit_outcome, OrMemory};

use super::changing::change;
use super::edit::Edit;
use ssz_schema::{PathStep, Schema, TypeId};
use ssz_value::{EditFault, Value};
use std::alloc::Global;

/// Puts a value of the type of the part in the place of the part at the path, in a value of the
/// type. `BadPath` exactly where the path does not fit the type, else `Absent` exactly where the
/// value has no such part, else `NotThat` exactly for a length or a selector. A refusal leaves the
/// value as it was. It takes no memory.
pub fn plain_set(
    schema: &Schema,
    id: TypeId,
    value: &mut Value,
    path: &[PathStep],
    new: Value,
) -> Result<(), EditFault>
    requires known { id < length schema.now.trees }
    requires value { IsValue (type_of schema.now id) value.old }
    requires new { IfSome (path_type (type_of schema.now id) path.now) (λ u. IsValue u new) }
    ensures edited { edit_outcome result (value_of value.new)
        ≡ set_at (type_of schema.now id) (value_of value.old) path.now (value_of new) }
    ensures fits { IsValue (type_of schema.now id) value.new }
    ensures kept { OnErr result (value_of value.new ≡ value_of value.old) }
{
    change(schema, id, value, path, Edit::Set(new))
}

/// Puts an element behind the last one of the list or bitlist at the path, in a value of the type;
/// a bit is a boolean. `BadPath` and `Absent` as in `plain_set`, then `NotThat` exactly where the
/// part is no list and no bitlist, then `Full` exactly where it has as many elements as its limit.
/// A refusal and want of memory leave the value as it was.
pub fn plain_append(
    schema: &Schema,
    id: TypeId,
    value: &mut Value,
    path: &[PathStep],
    new: Value,
) -> Result<(), EditFault>
    requires known { id < length schema.now.trees }
    requires value { IsValue (type_of schema.now id) value.old }
    requires new { IfSome (path_type (type_of schema.now id) path.now) (λ u. IsElement u new) }
    ensures edited { OrMemory result (edit_outcome result (value_of value.new)
        ≡ append_at (type_of schema.now id) (value_of value.old) path.now (value_of new)) }
    ensures fits { IsValue (type_of schema.now id) value.new }
    ensures kept { OnErr result (value_of value.new ≡ value_of value.old) }
{
    change(schema, id, value, path, Edit::Append(new))
}

/// Takes the last element away from the list or bitlist at the path, in a value of the type.
/// `BadPath`, `Absent` and `NotThat` as in `plain_append`, then `Empty` exactly where it has no
/// element. A refusal leaves the value as it was. It takes no memory.
pub fn plain_pop(
    schema: &Schema,
    id: TypeId,
    value: &mut Value,
    path: &[PathStep],
) -> Result<(), EditFault>
    requires known { id < length schema.now.trees }
    requires value { IsValue (type_of schema.now id) value.old }
    ensures edited { edit_outcome result (value_of value.new)
        ≡ pop_at (type_of schema.now id) (value_of value.old) path.now }
    ensures fits { IsValue (type_of schema.now id) value.new }
    ensures kept { OnErr result (value_of value.new ≡ value_of value.old) }
{
    change(schema, id, value, path, Edit::Pop)
}

/// Gives the union at the path the option of this number with this value, in a value of the type;
/// the option None has none. `BadPath` and `Absent` as in `plain_set`, then `NotThat` exactly where
/// the part is no union, then `BadSelector` exactly where no option has the number. A refusal and
/// want of memory leave the value as it was.
///
/// Seven parameters: those of each edit, and which option with which value.
pub fn plain_choose(
    alloc: Global,
    schema: &Schema,
    id: TypeId,
    value: &mut Value,
    path: &[PathStep],
    selector: u8,
    inner: Option<Value>,
) -> Result<(), EditFault>
    requires known { id < length schema.now.trees }
    requires value { IsValue (type_of schema.now id) value.old }
    requires inner { IfSome (path_type (type_of schema.now id) path.now)
        (λ u. IsInner u selector inner) }
    ensures edited { OrMemory result (edit_outcome result (value_of value.new)
        ≡ choose_at (type_of schema.now id) (value_of value.old) path.now selector
        (option_map value_of inner)) }
    ensures fits { IsValue (type_of schema.now id) value.new }
    ensures kept { OnErr result (value_of value.new ≡ value_of value.old) }
{
    let inner = match inner {
        Some(part) => Some(Box::new(alloc, part)?),
        None => None,
    };
    change(schema, id, value, path, Edit::Choose(selector, inner))
}
