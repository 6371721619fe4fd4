ghost use Rattle.std.specs.Prelude.{ℕ, ◌≡◌, ◌<◌, length, option_map, IfOk, IfSome};
ghost use Rattle.ssz_schema.specs.declared.path.PathStep.TheVariants.{Index, Len, Selector, Option as Chosen};
ghost use Rattle.ssz_schema.specs.Types.{SszType};
ghost use Rattle.ssz_schema.specs.Unfolding.{type_of};
ghost use Rattle.ssz_schema.specs.Paths.{path_type};
ghost use Rattle.ssz_value.specs.Parts.{part, part_at, part_or_fault};
ghost use Rattle.ssz_value.specs.Standing.{value_of, IsValue};
ghost use Rattle.ssz_plain.specs.Lent.{part_value, lent, IsPartOf, IsTold};
ghost use Rattle.ssz_plain.specs.Leading.{step_to, PlaceSuits};

use super::leading::{Place, step_lead};
use super::lending::PartRef;
use ssz_schema::{PathStep, Schema, TypeId};
use ssz_value::{PathFault, Value};

/// The part of a value of the type that the path leads to. `BadPath` exactly where the path does
/// not fit the type, and else `Absent` exactly where the value has no such part. Of a value of the
/// type the part is one of the type at the path.
pub fn part<'a>(
    schema: &Schema,
    id: TypeId,
    value: &'a Value,
    path: &[PathStep],
) -> Result<PartRef<'a>, PathFault>
    requires known { id < length schema.now.trees }
    ensures exact { lent result
        ≡ part_or_fault (type_of schema.now id) (value_of value.now) path.now }
    ensures fits { IsValue (type_of schema.now id) value.now
        → IfSome (path_type (type_of schema.now id) path.now) (λ u. IfOk result (IsPartOf u)) }
{
    match present(schema, id, value, path) {
        Some(part) => Ok(part),
        None => Err(PathFault::without(schema, id, path)),
    }
}

// The part, if each step fits and leads to one that is there.
fn present<'a>(
    schema: &Schema,
    id: TypeId,
    value: &'a Value,
    path: &[PathStep],
) -> Option<PartRef<'a>>
    requires known { id < length schema.now.trees }
    ensures exact { option_map part_value result
        ≡ part (type_of schema.now id) (value_of value.now) path.now }
    ensures fits { IsValue (type_of schema.now id) value.now
        → IfSome (path_type (type_of schema.now id) path.now) (λ u. IfSome result (IsPartOf u)) }
{
    let Some((step, rest)) = path.split_first() else {
        return Some(PartRef::Held(value));
    };
    let Some(next) = step_lead(schema, id, step) else {
        return None;
    };
    let Some(found) = part_at(value, next.place) else {
        return None;
    };
    match found {
        PartRef::Held(part) => present(schema, next.id, part, rest),
        PartRef::Number(_) => at_end(found, rest),
        PartRef::Bit(_) => at_end(found, rest),
    }
}

// A number or a bit, which has no parts, at the end of the path.
fn at_end<'a>(found: PartRef<'a>, rest: &[PathStep]) -> Option<PartRef<'a>>
    requires { IsTold found }
    ensures exact { (u : SszType) → option_map part_value result
        ≡ part u (part_value found.entry) rest.now }
    ensures fits { (u : SszType) → IsPartOf u found.entry
        → IfSome (path_type u rest.now) (λ x. IfSome result (IsPartOf x)) }
{
    if rest.len() == 0 { Some(found) } else { None }
}

// The part at the place, if it is there.
fn part_at(value: &Value, place: Place) -> Option<PartRef<'_>>
    ensures exact { option_map part_value result
        ≡ part_at (step_to place) (value_of value.now) }
    ensures fits { PlaceSuits value.now (step_to place) result }
{
    match place {
        Place::Item(i) => item(value, i),
        Place::Length => count(value),
        Place::Selector => selector(value),
        Place::Inner(number) => inner(value, number),
    }
}

fn item(value: &Value, i: u64) -> Option<PartRef<'_>>
    ensures exact { option_map part_value result ≡ part_at (Index i) (value_of value.now) }
    ensures fits { PlaceSuits value.now (Index i) result }
{
    match value {
        Value::Seq(parts) => match parts.get(i as usize) {
            Some(part) => Some(PartRef::Held(part)),
            None => None,
        },
        Value::Bytes(run) => match run.as_slice().get(i as usize) {
            Some(byte) => Some(PartRef::Number(u64::from(*byte))),
            None => None,
        },
        Value::Bits(run) => match run.as_slice().get(i as usize) {
            Some(bit) => Some(PartRef::Bit(*bit)),
            None => None,
        },
        _ => None,
    }
}

fn count(value: &Value) -> Option<PartRef<'_>>
    ensures exact { option_map part_value result ≡ part_at Len (value_of value.now) }
    ensures fits { PlaceSuits value.now Len result }
{
    match value {
        Value::Seq(parts) => Some(PartRef::Number(parts.len() as u64)),
        Value::Bytes(run) => Some(PartRef::Number(run.len() as u64)),
        Value::Bits(run) => Some(PartRef::Number(run.len() as u64)),
        _ => None,
    }
}

fn selector(value: &Value) -> Option<PartRef<'_>>
    ensures exact { option_map part_value result ≡ part_at Selector (value_of value.now) }
    ensures fits { PlaceSuits value.now Selector result }
{
    match value {
        Value::Union { selector, inner } => {
            let _inner = inner.is_some();
            Some(PartRef::Number(u64::from(*selector)))
        }
        _ => None,
    }
}

fn inner(value: &Value, number: u8) -> Option<PartRef<'_>>
    ensures exact { option_map part_value result ≡ part_at (Chosen number) (value_of value.now) }
    ensures fits { PlaceSuits value.now (Chosen number) result }
{
    match value {
        Value::Union { selector, inner } => match inner {
            Some(part) => {
                if *selector == number {
                    Some(PartRef::Held(part))
                } else {
                    None
                }
            }
            None => None,
        },
        _ => None,
    }
}
