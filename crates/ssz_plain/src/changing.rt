// The way down to the part that an edit changes.
ghost use Rattle.std.specs.Prelude.{◌≡◌, ◌<◌, true, false, length, Ok, Err};
ghost use Rattle.ssz_schema.specs.width.Width.TheVariants.{W8};
ghost use Rattle.ssz_schema.specs.Types.{uint, boolean};
ghost use Rattle.ssz_schema.specs.Unfolding.{type_of};
ghost use Rattle.ssz_value.specs.Standing.{IsValue, value_of};
ghost use Rattle.ssz_value.specs.Edits.{edited};
ghost use Rattle.ssz_plain.specs.declared.leading.Place.TheVariants.{Item, Inner};
ghost use Rattle.ssz_plain.specs.Leading.{LeadsBy};
ghost use Rattle.ssz_plain.specs.Making.{EditsValue, ChangeLeaves, edit_of, takes_memory, SuitsPath, SuitsEdit, refusal, put_at, new_byte, new_bit};

use super::edit::Edit;
use super::leading::{Place, step_lead};
use super::making::{bit_of, byte_of, make};
use ssz_bytes::{BitRun, ByteRun};
use ssz_schema::{PathStep, Schema, TypeId};
use ssz_value::{EditFault, Value};

// Makes the edit of the part at the path. What refuses it asks whether the rest of the path fits,
// so that a path is walked once.
#[cycle(change)]
pub(crate) fn change(
    schema: &Schema,
    id: TypeId,
    value: &mut Value,
    path: &[PathStep],
    edit: Edit,
) -> Result<(), EditFault>
    requires known { id < length schema.now.trees }
    requires value { IsValue (type_of schema.now id) value.old }
    requires suits { SuitsPath (type_of schema.now id) path.now edit }
    ensures { let t = type_of schema.now id in
        EditsValue (takes_memory edit) t (edited (edit_of edit) t (value_of value.old) path.now)
        value.old value.new result }
{
    let Some((step, rest)) = path.split_first() else {
        return make(schema, id, value, edit);
    };
    // An edit that is refused is let go by a call, else each exit lets go of each of its forms.
    let Some(next) = step_lead(schema, id, step) else {
        drop(edit);
        return Err(EditFault::BadPath);
    };
    match next.place {
        Place::Item(i) => change_item(schema, id, value, path, (next.id, i), edit),
        // They cannot be changed alone.
        Place::Length => {
            drop(edit);
            Err(refusal(schema, next.id, rest, EditFault::NotThat))
        }
        Place::Selector => {
            drop(edit);
            Err(refusal(schema, next.id, rest, EditFault::NotThat))
        }
        Place::Inner(number) => change_inner(schema, id, value, path, (next.id, number), edit),
    }
}

// The same, where the path leads to the item of this type and number.
#[cycle(change)]
fn change_item(
    schema: &Schema,
    id: TypeId,
    value: &mut Value,
    path: &[PathStep],
    at: (TypeId, u64),
    edit: Edit,
) -> Result<(), EditFault>
    requires known { id < length schema.now.trees }
    requires value { IsValue (type_of schema.now id) value.old }
    requires suits { SuitsPath (type_of schema.now id) path.now edit }
    requires led { LeadsBy schema.now id path.now at.0 (Item at.1) }
    ensures { let t = type_of schema.now id in
        EditsValue (takes_memory edit) t (edited (edit_of edit) t (value_of value.old) path.now)
        value.old value.new result }
{
    let i = at.1;
    match value {
        Value::Seq(parts) => {
            if i >= parts.len() as u64 {
                drop(edit);
                return Err(refusal(schema, at.0, &path[1..], EditFault::Absent));
            }
            change(schema, at.0, &mut parts[i as usize], &path[1..], edit)
        }
        Value::Bytes(run) => {
            if path.len() > 1 {
                drop(edit);
                return Err(EditFault::BadPath);
            }
            change_byte(run, i, edit)
        }
        Value::Bits(run) => {
            if path.len() > 1 {
                drop(edit);
                return Err(EditFault::BadPath);
            }
            change_bit(run, i, edit)
        }
        _ => {
            drop(edit);
            Err(refusal(schema, at.0, &path[1..], EditFault::Absent))
        }
    }
}

// The same, where it leads to what a union holds by the option of this type and number.
#[cycle(change)]
fn change_inner(
    schema: &Schema,
    id: TypeId,
    value: &mut Value,
    path: &[PathStep],
    at: (TypeId, u8),
    edit: Edit,
) -> Result<(), EditFault>
    requires known { id < length schema.now.trees }
    requires value { IsValue (type_of schema.now id) value.old }
    requires suits { SuitsPath (type_of schema.now id) path.now edit }
    requires led { LeadsBy schema.now id path.now at.0 (Inner at.1) }
    ensures { let t = type_of schema.now id in
        EditsValue (takes_memory edit) t (edited (edit_of edit) t (value_of value.old) path.now)
        value.old value.new result }
{
    let number = at.1;
    match value {
        Value::Union { selector, inner } => {
            if *selector != number {
                drop(edit);
                return Err(refusal(schema, at.0, &path[1..], EditFault::Absent));
            }
            match inner {
                Some(part) => change(schema, at.0, part.as_mut(), &path[1..], edit),
                None => {
                    drop(edit);
                    Err(refusal(schema, at.0, &path[1..], EditFault::Absent))
                }
            }
        }
        _ => {
            drop(edit);
            Err(refusal(schema, at.0, &path[1..], EditFault::Absent))
        }
    }
}

// Why the edit is refused where this path leads on: that it does not fit comes first.
fn refusal(schema: &Schema, id: TypeId, path: &[PathStep], fault: EditFault) -> EditFault
    requires { id < length schema.now.trees }
    ensures { result ≡ refusal (type_of schema.now id) path.now fault }
{
    match schema.path_type(id, path) {
        Some(_) => fault,
        None => EditFault::BadPath,
    }
}

// Makes the edit of byte i.
fn change_byte(run: &mut ByteRun, i: u64, edit: Edit) -> Result<(), EditFault>
    requires { SuitsEdit (uint W8) edit }
    ensures { ChangeLeaves false (put_at i (new_byte edit) run.old) run.old run.new result }
{
    if i >= run.len() as u64 {
        drop(edit);
        return Err(EditFault::Absent);
    }
    match edit {
        Edit::Set(new) => {
            run.set(i as usize, byte_of(&new));
            Ok(())
        }
        other => {
            drop(other);
            Err(EditFault::NotThat)
        }
    }
}

// Makes the edit of bit i.
fn change_bit(run: &mut BitRun, i: u64, edit: Edit) -> Result<(), EditFault>
    requires { SuitsEdit boolean edit }
    ensures { ChangeLeaves false (put_at i (new_bit edit) run.old) run.old run.new result }
{
    if i >= run.len() as u64 {
        drop(edit);
        return Err(EditFault::Absent);
    }
    match edit {
        Edit::Set(new) => {
            run.set(i as usize, bit_of(&new));
            Ok(())
        }
        other => {
            drop(other);
            Err(EditFault::NotThat)
        }
    }
}
