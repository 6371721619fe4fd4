// One element, byte or bit more or less.
ghost use Rattle.std.specs.Prelude.{true, false};
ghost use Rattle.ssz_plain.specs.Making.{ChangeLeaves, one_more, one_less};

use ssz_bytes::{BitRun, ByteRun};
use ssz_value::{EditFault, Value};

pub(crate) fn push_part(parts: &mut Vec<Value>, limit: u64, new: Value) -> Result<(), EditFault>
    ensures { ChangeLeaves true (one_more limit new parts.old.items) parts.old.items parts.new.items
        result }
{
    if parts.len() as u64 >= limit {
        return Err(EditFault::Full);
    }
    match parts.push(new) {
        Ok(()) => Ok(()),
        Err(_) => Err(EditFault::Memory),
    }
}

pub(crate) fn push_byte(run: &mut ByteRun, limit: u64, byte: u8) -> Result<(), EditFault>
    ensures { ChangeLeaves true (one_more limit byte run.old) run.old run.new result }
{
    if run.len() as u64 >= limit {
        return Err(EditFault::Full);
    }
    match run.push(byte) {
        Ok(()) => Ok(()),
        Err(_) => Err(EditFault::Memory),
    }
}

pub(crate) fn push_bit(run: &mut BitRun, limit: u64, bit: bool) -> Result<(), EditFault>
    ensures { ChangeLeaves true (one_more limit bit run.old) run.old run.new result }
{
    if run.len() as u64 >= limit {
        return Err(EditFault::Full);
    }
    match run.push(bit) {
        Ok(()) => Ok(()),
        Err(_) => Err(EditFault::Memory),
    }
}

pub(crate) fn pop_part(parts: &mut Vec<Value>) -> Result<(), EditFault>
    ensures { ChangeLeaves false (one_less parts.old.items) parts.old.items parts.new.items result }
{
    match parts.pop() {
        Some(_) => Ok(()),
        None => Err(EditFault::Empty),
    }
}

pub(crate) fn pop_byte(run: &mut ByteRun) -> Result<(), EditFault>
    ensures { ChangeLeaves false (one_less run.old) run.old run.new result }
{
    if run.len() == 0 {
        return Err(EditFault::Empty);
    }
    run.pop();
    Ok(())
}

pub(crate) fn pop_bit(run: &mut BitRun) -> Result<(), EditFault>
    ensures { ChangeLeaves false (one_less run.old) run.old run.new result }
{
    if run.len() == 0 {
        return Err(EditFault::Empty);
    }
    run.pop();
    Ok(())
}
