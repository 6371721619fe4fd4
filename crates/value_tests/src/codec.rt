ghost use Rattle.std.specs.Prelude.{◌<◌, ◌^◌, length};

use super::types::schema;
use ssz_codec::{EncodeFault, decode, encode};
use ssz_schema::Schema;
use std::alloc::Global;
use std::test::Fail;

// What is answered where the value of these bytes is encoded behind others.
fn encoded(
    alloc: Global,
    schema: &Schema,
    bytes: &[u8],
    max: u32,
    out: &mut Vec<u8>,
) -> Result<(), EncodeFault>
    requires { length bytes.now < 2 ^ 32 }
{
    let Some(id) = schema.find("Shorts") else {
        return Err(EncodeFault::Memory);
    };
    match decode(alloc, schema, id, bytes) {
        Ok(value) => encode(schema, id, &value, max, out),
        Err(_) => Err(EncodeFault::Memory),
    }
}

#[test]
fn encodes_what_it_decodes(rt: HostRuntime) -> Result<(), Fail> {
    let schema = schema(rt.alloc())?;
    let bytes = b"\x01\x02\x03\x04";
    let mut out = Vec::new(rt.alloc());
    assert!(rt; encoded(rt.alloc(), &schema, bytes, 4, &mut out) == Ok(()));
    assert!(rt; out.as_slice() == bytes.as_slice());
    Ok(())
}

#[test]
fn too_long_keeps_what_there_is(rt: HostRuntime) -> Result<(), Fail> {
    let schema = schema(rt.alloc())?;
    let mut out = vec![in rt.alloc(); 7; 1]?;
    let long = encoded(rt.alloc(), &schema, b"\x01\x02", 1, &mut out);
    assert!(rt; long == Err(EncodeFault::TooLong));
    assert!(rt; out.as_slice() == [7].as_slice());
    Ok(())
}
