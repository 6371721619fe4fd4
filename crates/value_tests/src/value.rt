use super::types::schema;
use ssz_bytes::{BitRun, ByteRun};
use ssz_chunk::Chunk;
use ssz_schema::Schema;
use ssz_value::{Value, copy, default_of, fits};
use std::alloc::{AllocError, Global};
use std::test::Fail;

// Whether the default of the type of this name, and a copy of it, are values of the type.
fn default_fits(alloc: Global, schema: &Schema, name: &str) -> bool {
    let Some(id) = schema.find(name) else {
        return false;
    };
    let Ok(value) = default_of(alloc, schema, id) else {
        return false;
    };
    match copy(alloc, &value) {
        Ok(copy) => fits(schema, id, &value) && fits(schema, id, &copy),
        Err(_) => false,
    }
}

#[test]
fn defaults_of_basic_types_and_their_copies_fit(rt: HostRuntime) -> Result<(), Fail> {
    let schema = schema(rt.alloc())?;
    assert!(rt; default_fits(rt.alloc(), &schema, "boolean"));
    assert!(rt; default_fits(rt.alloc(), &schema, "uint8"));
    assert!(rt; default_fits(rt.alloc(), &schema, "uint128"));
    assert!(rt; default_fits(rt.alloc(), &schema, "uint256"));
    Ok(())
}

#[test]
fn defaults_and_their_copies_fit(rt: HostRuntime) -> Result<(), Fail> {
    let schema = schema(rt.alloc())?;
    assert!(rt; default_fits(rt.alloc(), &schema, "Record"));
    assert!(rt; default_fits(rt.alloc(), &schema, "Bits"));
    assert!(rt; default_fits(rt.alloc(), &schema, "Either"));
    assert!(rt; default_fits(rt.alloc(), &schema, "Pairs"));
    Ok(())
}

// Whether `fits` answers this for the type of this name and the value.
fn has(schema: &Schema, name: &str, value: Value, want: bool) -> bool {
    match schema.find(name) {
        Some(id) => fits(schema, id, &value) == want,
        None => false,
    }
}

#[test]
fn each_number_has_its_values_alone(rt: HostRuntime) -> Result<(), Fail> {
    let schema = schema(rt.alloc())?;
    assert!(rt; has(&schema, "uint8", Value::Uint(255), true));
    assert!(rt; has(&schema, "uint8", Value::Uint(256), false));
    assert!(rt; has(&schema, "uint256", Value::Uint(1), false));
    assert!(rt; has(&schema, "uint256", Value::Wide(Chunk::ZERO), true));
    assert!(rt; has(&schema, "uint64", Value::Wide(Chunk::ZERO), false));
    Ok(())
}

// These bytes, as a value of their own.
fn run(alloc: Global, bytes: &[u8]) -> Result<Value, AllocError> {
    Ok(Value::Bytes(ByteRun::copy_of(alloc, bytes)?))
}

// false, and these bytes
fn record(alloc: Global, bytes: &[u8]) -> Result<Value, AllocError> {
    let mut parts = Vec::new(alloc);
    parts.push(Value::Bool(false))?;
    parts.push(run(alloc, bytes)?)?;
    Ok(Value::Seq(parts))
}

fn bits(alloc: Global, bits: &[bool]) -> Result<Value, AllocError> {
    Ok(Value::Bits(BitRun::copy_of(alloc, bits)?))
}

// The same for a value that could be made.
fn made_has(schema: &Schema, name: &str, made: Result<Value, AllocError>, want: bool) -> bool {
    match made {
        Ok(value) => has(schema, name, value, want),
        Err(_) => false,
    }
}

#[test]
fn each_sequence_has_its_values_alone(rt: HostRuntime) -> Result<(), Fail> {
    let alloc = rt.alloc();
    let schema = schema(alloc)?;
    assert!(rt; made_has(&schema, "Record", record(alloc, &[1, 2]), true));
    assert!(rt; made_has(&schema, "Record", record(alloc, &[1, 2, 3]), false));
    assert!(rt; made_has(&schema, "Record", run(alloc, &[0, 0]), false));
    assert!(rt; made_has(&schema, "Bits", bits(alloc, &[true, false]), false));
    Ok(())
}

// An option with no inner value.
fn option(selector: u8) -> Value {
    Value::Union {
        selector,
        inner: None,
    }
}

#[test]
fn a_union_has_its_values_alone(rt: HostRuntime) -> Result<(), Fail> {
    let schema = schema(rt.alloc())?;
    assert!(rt; has(&schema, "Either", option(0), true));
    assert!(rt; has(&schema, "Either", option(1), false));
    assert!(rt; has(&schema, "Either", option(2), false));
    Ok(())
}
