ghost use Rattle.std.specs.Prelude.{◌≡◌, ◌<◌, length, IfOk, Option};
ghost use Rattle.std.specs.List.{AllByRecursion};
ghost use Rattle.ssz_schema.specs.Types.{uint, vector, union, container};
ghost use Rattle.ssz_schema.specs.Unfolding.{type_of, fields_over, options_over, IsBelow};
ghost use Rattle.ssz_value.specs.Defaults.{default_of};
ghost use Rattle.ssz_value.specs.Standing.{Stands};

use super::parts::{is_byte, option_at};
use super::value::Value;
use ssz_bytes::{BitRun, ByteRun};
use ssz_chunk::Chunk;
use ssz_schema::{Name, Schema, Ty, TypeId, Width};
use std::alloc::{AllocError, Global};

/// The default of the type, in the form that the type wants. It fails for want of memory alone.
#[cycle(default)]
pub fn default_of(alloc: Global, schema: &Schema, id: TypeId) -> Result<Value, AllocError>
    requires { id < length schema.now.trees }
    ensures { IfOk result (Stands (type_of schema.now id) (default_of (type_of schema.now id))) }
{
    match schema.ty(id) {
        Ty::Uint(width) => Ok(default_number(*width)),
        Ty::Boolean => Ok(Value::Bool(false)),
        Ty::Bitvector(n) => {
            let bits = Vec::from_elem(alloc, false, *n as usize)?;
            Ok(Value::Bits(BitRun::from_bits(bits)))
        }
        Ty::Bitlist(_) => Ok(Value::Bits(BitRun::from_bits(Vec::new(alloc)))),
        Ty::Vector(elem, n) => default_sequence(alloc, schema, *elem, *n),
        Ty::List(elem, _) => default_sequence(alloc, schema, *elem, 0),
        Ty::Union(options) => default_union(alloc, schema, id, options.as_slice()),
        Ty::Container(fields) => default_container(alloc, schema, id, fields.as_slice()),
    }
}

fn default_number(width: Width) -> Value
    ensures { Stands (uint width) (default_of (uint width)) result }
{
    match width {
        Width::W256 => Value::Wide(Chunk::ZERO),
        _ => Value::Uint(0),
    }
}

// So many defaults of the type.
#[cycle(default)]
fn default_sequence(
    alloc: Global,
    schema: &Schema,
    elem: TypeId,
    count: u64,
) -> Result<Value, AllocError>
    requires { elem < length schema.now.trees }
    ensures { let t = vector (type_of schema.now elem) count in
        IfOk result (Stands t (default_of t)) }
{
    if is_byte(schema, elem) {
        let bytes = Vec::from_elem(alloc, 0u8, count as usize)?;
        return Ok(Value::Bytes(ByteRun::from_bytes(bytes)));
    }
    let mut parts = Vec::with_capacity(alloc, count as usize)?;
    for _i in 0..count {
        let part = default_of(alloc, schema, elem)?;
        parts.push(part)?;
    }
    Ok(Value::Seq(parts))
}

// Of a union of these options, whose types stand before id.
#[cycle(default)]
fn default_union(
    alloc: Global,
    schema: &Schema,
    id: TypeId,
    options: &[Option<TypeId>],
) -> Result<Value, AllocError>
    requires known { id < length schema.now.trees }
    requires before { AllByRecursion (IsBelow id) options.now }
    ensures { let t = union (options_over schema.now.trees options.now) in
        IfOk result (Stands t (default_of t)) }
{
    let selector = 0;
    match option_at(options, selector) {
        Some(Some(option)) => {
            let inner = default_of(alloc, schema, option)?;
            Ok(Value::Union {
                selector,
                inner: Some(Box::new(alloc, inner)?),
            })
        }
        Some(None) => Ok(Value::Union {
            selector,
            inner: None,
        }),
        None => Ok(Value::Union {
            selector,
            inner: None,
        }),
    }
}

// Of a container of these fields, whose types stand before id.
#[cycle(default)]
fn default_container(
    alloc: Global,
    schema: &Schema,
    id: TypeId,
    fields: &[(Name, TypeId)],
) -> Result<Value, AllocError>
    requires known { id < length schema.now.trees }
    requires before { AllByRecursion (λ part. part.1 < id) fields.now }
    ensures { let t = container (fields_over schema.now.trees fields.now) in
        IfOk result (Stands t (default_of t)) }
{
    let mut parts = Vec::with_capacity(alloc, fields.len())?;
    for field in fields {
        let part = default_of(alloc, schema, field.1)?;
        parts.push(part)?;
    }
    Ok(Value::Seq(parts))
}
