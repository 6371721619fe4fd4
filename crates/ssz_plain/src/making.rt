// An edit at the part that it changes.
ghost use Rattle.std.specs.Prelude.{◌≡◌, ◌<◌, true, false, length, option_map};
ghost use Rattle.ssz_schema.specs.width.Width.TheVariants.{W8};
ghost use Rattle.ssz_schema.specs.Types.{uint, boolean};
ghost use Rattle.ssz_schema.specs.Unfolding.{type_of};
ghost use Rattle.ssz_value.specs.Values.{number as number_value, truth};
ghost use Rattle.ssz_value.specs.Standing.{IsValue, value_of};
ghost use Rattle.ssz_value.specs.Suiting.{IsElement, IsInner};
ghost use Rattle.ssz_value.specs.Edits.{with_more, with_less, with_choice};
ghost use Rattle.ssz_plain.specs.Making.{EditsValue, edit_of, takes_memory, SuitsEdit, unboxed};

use super::edit::Edit;
use super::runs::{pop_bit, pop_byte, pop_part, push_bit, push_byte, push_part};
use ssz_schema::{Schema, Ty, TypeId};
use ssz_value::{EditFault, Value};

// Makes the edit of a value of the type.
pub(crate) fn make(
    schema: &Schema,
    id: TypeId,
    value: &mut Value,
    edit: Edit,
) -> Result<(), EditFault>
    requires known { id < length schema.now.trees }
    requires value { IsValue (type_of schema.now id) value.old }
    requires edit { SuitsEdit (type_of schema.now id) edit }
    ensures { let t = type_of schema.now id in
        EditsValue (takes_memory edit) t (edit_of edit t (value_of value.old)) value.old value.new
        result }
{
    match edit {
        Edit::Set(new) => {
            *value = new;
            Ok(())
        }
        Edit::Append(new) => append(schema, id, value, new),
        Edit::Pop => pop(schema, id, value),
        Edit::Choose(selector, inner) => choose(schema, id, value, selector, inner),
    }
}

// Puts an element behind the last one.
fn append(schema: &Schema, id: TypeId, value: &mut Value, new: Value) -> Result<(), EditFault>
    requires known { id < length schema.now.trees }
    requires value { IsValue (type_of schema.now id) value.old }
    requires new { IsElement (type_of schema.now id) new }
    ensures { let t = type_of schema.now id in
        EditsValue true t (with_more (value_of new) t (value_of value.old)) value.old value.new
        result }
{
    match schema.ty(id) {
        Ty::List(_, limit) => match value {
            Value::Seq(parts) => push_part(parts, *limit, new),
            Value::Bytes(run) => push_byte(run, *limit, byte_of(&new)),
            _ => {
                drop(new);
                Err(EditFault::NotThat)
            }
        },
        Ty::Bitlist(limit) => match value {
            Value::Bits(run) => push_bit(run, *limit, bit_of(&new)),
            _ => {
                drop(new);
                Err(EditFault::NotThat)
            }
        },
        _ => {
            drop(new);
            Err(EditFault::NotThat)
        }
    }
}

// Takes the last element away.
fn pop(schema: &Schema, id: TypeId, value: &mut Value) -> Result<(), EditFault>
    requires known { id < length schema.now.trees }
    requires value { IsValue (type_of schema.now id) value.old }
    ensures { let t = type_of schema.now id in
        EditsValue false t (with_less t (value_of value.old)) value.old value.new result }
{
    match schema.ty(id) {
        Ty::List(_, _) => match value {
            Value::Seq(parts) => pop_part(parts),
            Value::Bytes(run) => pop_byte(run),
            _ => Err(EditFault::NotThat),
        },
        Ty::Bitlist(_) => match value {
            Value::Bits(run) => pop_bit(run),
            _ => Err(EditFault::NotThat),
        },
        _ => Err(EditFault::NotThat),
    }
}

// Puts the option of this number in the place of the present one.
fn choose(
    schema: &Schema,
    id: TypeId,
    value: &mut Value,
    selector: u8,
    inner: Option<Box<Value>>,
) -> Result<(), EditFault>
    requires known { id < length schema.now.trees }
    requires value { IsValue (type_of schema.now id) value.old }
    requires inner { IsInner (type_of schema.now id) selector (unboxed inner) }
    ensures { let t = type_of schema.now id in
        EditsValue false t
        (with_choice selector (option_map value_of (unboxed inner)) t (value_of value.old))
        value.old value.new result }
{
    let Ty::Union(options) = schema.ty(id) else {
        return Err(EditFault::NotThat);
    };
    if usize::from(selector) >= options.len() {
        return Err(EditFault::BadSelector);
    }
    *value = Value::Union { selector, inner };
    Ok(())
}

// The byte that a uint8 is.
pub(crate) fn byte_of(value: &Value) -> u8
    requires { IsValue (uint W8) value.now }
    ensures { value_of value.now ≡ number_value result }
{
    match value {
        Value::Uint(number) => *number as u8,
        _ => 0,
    }
}

// The bit that a boolean is.
pub(crate) fn bit_of(value: &Value) -> bool
    requires { IsValue boolean value.now }
    ensures { value_of value.now ≡ truth result }
{
    match value {
        Value::Bool(bit) => *bit,
        _ => false,
    }
}
