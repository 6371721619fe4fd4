ghost use Rattle.std.specs.Prelude.{◌≡◌, ◌<◌, ◌↔◌, length, IsTrue, Option};
ghost use Rattle.std.specs.List.{AllByRecursion};
ghost use Rattle.ssz_schema.specs.Types.{uint, boolean, bitvector, bitlist, union, container};
ghost use Rattle.ssz_schema.specs.Unfolding.{type_of, fields_over, options_over, IsBelow};
ghost use Rattle.ssz_value.specs.Values.{FitsWidth, number as number_value};
ghost use Rattle.ssz_value.specs.Standing.{IsValue};
ghost use Rattle.ssz_value.specs.Shapes.{IsSequence, AreFields};

use super::parts::{is_byte, option_at, part_count, wide_bytes};
use super::value::Value;
use ssz_schema::{Name, Schema, Ty, TypeId, Width};

/// Whether the value is one of the type, in the form that the type wants: `Bytes` exactly for
/// vectors and lists of uint8, `Wide` exactly for uint256. It asks nothing of the value.
#[cycle(fits)]
pub fn fits(schema: &Schema, id: TypeId, value: &Value) -> bool
    requires { id < length schema.now.trees }
    ensures { IsTrue result ↔ IsValue (type_of schema.now id) value.now }
{
    match schema.ty(id) {
        Ty::Uint(width) => number_fits(*width, value),
        Ty::Boolean => flag_fits(value),
        Ty::Bitvector(n) => bitvector_fits(*n, value),
        Ty::Bitlist(limit) => bitlist_fits(*limit, value),
        Ty::Vector(elem, n) => {
            part_count(value) as u64 == *n && sequence_fits(schema, *elem, value)
        }
        Ty::List(elem, limit) => {
            part_count(value) as u64 <= *limit && sequence_fits(schema, *elem, value)
        }
        Ty::Union(options) => union_fits(schema, id, options.as_slice(), value),
        Ty::Container(fields) => container_fits(schema, id, fields.as_slice(), value),
    }
}

fn number_fits(width: Width, value: &Value) -> bool
    ensures { IsTrue result ↔ IsValue (uint width) value.now }
{
    match value {
        Value::Uint(number) => number_is_below(width, *number),
        Value::Wide(chunk) => {
            let _bytes = wide_bytes(chunk);
            matches!(width, Width::W256)
        }
        _ => false,
    }
}

fn number_is_below(width: Width, number: u128) -> bool
    ensures { IsTrue result ↔ FitsWidth width (number_value number) }
{
    match width {
        Width::W8 => number < 1 << 8,
        Width::W16 => number < 1 << 16,
        Width::W32 => number < 1 << 32,
        Width::W64 => number < 1 << 64,
        Width::W128 => true,
        Width::W256 => false,
    }
}

fn flag_fits(value: &Value) -> bool
    ensures { IsTrue result ↔ IsValue boolean value.now }
{
    matches!(value, Value::Bool(_))
}

fn bitvector_fits(n: u64, value: &Value) -> bool
    ensures { IsTrue result ↔ IsValue (bitvector n) value.now }
{
    match value {
        Value::Bits(run) => run.len() as u64 == n,
        _ => false,
    }
}

fn bitlist_fits(limit: u64, value: &Value) -> bool
    ensures { IsTrue result ↔ IsValue (bitlist limit) value.now }
{
    match value {
        Value::Bits(run) => run.len() as u64 <= limit,
        _ => false,
    }
}

// Whether it is a sequence of elements of this type.
#[cycle(fits)]
fn sequence_fits(schema: &Schema, elem: TypeId, value: &Value) -> bool
    requires { elem < length schema.now.trees }
    ensures { IsTrue result ↔ IsSequence (type_of schema.now elem) value.now }
{
    match value {
        Value::Seq(parts) => {
            if is_byte(schema, elem) {
                return false;
            }
            elements_fit(schema, elem, parts.as_slice())
        }
        Value::Bytes(run) => {
            let _bytes = run.as_slice();
            is_byte(schema, elem)
        }
        _ => false,
    }
}

#[cycle(fits)]
fn elements_fit(schema: &Schema, elem: TypeId, parts: &[Value]) -> bool
    requires { elem < length schema.now.trees }
    ensures { IsTrue result ↔ AllByRecursion (IsValue (type_of schema.now elem)) parts.now }
{
    for part in parts {
        if !fits(schema, elem, part) {
            return false;
        }
    }
    true
}

// Of a union of these options, whose types stand before id.
#[cycle(fits)]
fn union_fits(schema: &Schema, id: TypeId, options: &[Option<TypeId>], value: &Value) -> bool
    requires known { id < length schema.now.trees }
    requires before { AllByRecursion (IsBelow id) options.now }
    ensures { let t = union (options_over schema.now.trees options.now) in
        IsTrue result ↔ IsValue t value.now }
{
    match value {
        Value::Union { selector, inner } => match inner {
            Some(inner) => match option_at(options, *selector) {
                Some(Some(option)) => fits(schema, option, inner),
                Some(None) => false,
                None => false,
            },
            None => match option_at(options, *selector) {
                Some(Some(_)) => false,
                Some(None) => true,
                None => false,
            },
        },
        _ => false,
    }
}

// Of a container of these fields, whose types stand before id.
#[cycle(fits)]
fn container_fits(schema: &Schema, id: TypeId, fields: &[(Name, TypeId)], value: &Value) -> bool
    requires known { id < length schema.now.trees }
    requires before { AllByRecursion (λ part. part.1 < id) fields.now }
    ensures { let t = container (fields_over schema.now.trees fields.now) in
        IsTrue result ↔ IsValue t value.now }
{
    match value {
        Value::Seq(parts) => fields_fit(schema, id, fields, parts.as_slice()),
        _ => false,
    }
}

#[cycle(fits)]
fn fields_fit(schema: &Schema, id: TypeId, fields: &[(Name, TypeId)], parts: &[Value]) -> bool
    requires known { id < length schema.now.trees }
    requires before { AllByRecursion (λ part. part.1 < id) fields.now }
    ensures { IsTrue result ↔ AreFields (fields_over schema.now.trees fields.now) parts.now }
{
    if fields.len() != parts.len() {
        return false;
    }
    for (i, field) in fields.iter().enumerate() {
        if !fits(schema, field.1, &parts[i]) {
            return false;
        }
    }
    true
}
