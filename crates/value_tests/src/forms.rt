use super::types::schema;
use ssz_codec::decode;
use ssz_forms::{UpgradeFault, plain_upgrade, same_type};
use ssz_schema::Schema;
use ssz_value::Value;
use std::alloc::Global;
use std::test::Fail;

// P of a 1, b 2.
const ONE_AND_TWO: [u8; 16] = [1, 0, 0, 0, 0, 0, 0, 0, 2, 0, 0, 0, 0, 0, 0, 0];

// That value, upgraded to the type of a name.
fn upgraded(alloc: Global, schema: &Schema, to: &str) -> Result<Value, UpgradeFault> {
    let (Some(from), Some(to)) = (schema.find("P"), schema.find(to)) else {
        return Err(UpgradeFault::Memory);
    };
    match decode(alloc, schema, from, ONE_AND_TWO.as_slice()) {
        Ok(value) => plain_upgrade(alloc, schema, from, &value, to),
        Err(_) => Err(UpgradeFault::Memory),
    }
}

// The number that stands at this place of a container.
fn number_at(value: &Value, place: usize) -> Option<u128> {
    match value {
        Value::Seq(parts) => match parts.as_slice().get(place) {
            Some(Value::Uint(number)) => Some(*number),
            _ => None,
        },
        _ => None,
    }
}

// Whether that value, upgraded to New, has its b and else zeros.
fn takes_one_field(alloc: Global, schema: &Schema) -> bool {
    match upgraded(alloc, schema, "New") {
        Ok(newer) => {
            number_at(&newer, 0) == Some(2)
                && number_at(&newer, 1) == Some(0)
                && number_at(&newer, 2) == Some(0)
        }
        Err(_) => false,
    }
}

#[test]
fn takes_the_fields_of_equal_types(rt: HostRuntime) -> Result<(), Fail> {
    assert!(rt; takes_one_field(rt.alloc(), &schema(rt.alloc())?));
    Ok(())
}

#[test]
fn a_union_takes_no_fields(rt: HostRuntime) -> Result<(), Fail> {
    let schema = schema(rt.alloc())?;
    let fault = upgraded(rt.alloc(), &schema, "Flag").err();
    assert!(rt; fault == Some(UpgradeFault::NotContainer));
    Ok(())
}

// Whether `same_type` answers this for the types of these names.
fn are_same(alloc: Global, schema: &Schema, one: &str, other: &str, want: bool) -> bool {
    let (Some(one), Some(other)) = (schema.find(one), schema.find(other)) else {
        return false;
    };
    match same_type(alloc, schema, one, other) {
        Ok(same) => same == want,
        Err(_) => false,
    }
}

#[test]
fn types_are_the_same_by_their_trees(rt: HostRuntime) -> Result<(), Fail> {
    let schema = schema(rt.alloc())?;
    assert!(rt; are_same(rt.alloc(), &schema, "P", "Same", true));
    assert!(rt; are_same(rt.alloc(), &schema, "P", "New", false));
    assert!(rt; are_same(rt.alloc(), &schema, "P", "Flag", false));
    assert!(rt; are_same(rt.alloc(), &schema, "Two", "Two", true));
    assert!(rt; are_same(rt.alloc(), &schema, "Two", "Three", false));
    Ok(())
}
