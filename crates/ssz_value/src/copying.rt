ghost use Rattle.std.specs.Prelude.{IfOk};
ghost use Rattle.ssz_value.specs.Standing.{IsCopy};

use super::value::Value;
use ssz_bytes::{BitRun, ByteRun};
use std::alloc::{AllocError, Global};

/// A value of its own that stands for the same, in the same form. It fails for want of memory
/// alone.
pub fn copy(alloc: Global, value: &Value) -> Result<Value, AllocError>
    ensures { IfOk result (IsCopy value.now) }
{
    match value {
        Value::Uint(number) => Ok(Value::Uint(*number)),
        Value::Wide(chunk) => Ok(Value::Wide(*chunk)),
        Value::Bool(flag) => Ok(Value::Bool(*flag)),
        Value::Bytes(run) => Ok(Value::Bytes(ByteRun::copy_of(alloc, run.as_slice())?)),
        Value::Bits(run) => Ok(Value::Bits(BitRun::copy_of(alloc, run.as_slice())?)),
        Value::Seq(parts) => {
            let mut copies = Vec::with_capacity(alloc, parts.len())?;
            for part in parts {
                let part = copy(alloc, part)?;
                copies.push(part)?;
            }
            Ok(Value::Seq(copies))
        }
        Value::Union { selector, inner } => match inner {
            Some(inner) => {
                let inner = copy(alloc, inner)?;
                Ok(Value::Union {
                    selector: *selector,
                    inner: Some(Box::new(alloc, inner)?),
                })
            }
            None => Ok(Value::Union {
                selector: *selector,
                inner: None,
            }),
        },
    }
}
