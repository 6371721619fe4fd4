// What the texts and bytes that a call is given say.
ghost use Rattle.std.specs.Prelude.{◌<◌, ◌^◌, length, IfOk};
ghost use Rattle.ssz_said.specs.Outcome.{AnswersFirst, IsUnlessMemory, at_most};
ghost use Rattle.ssz_said.specs.Texts.{index_in, name_in, path_in};
ghost use Rattle.ssz_said.specs.declared.status.TheConstants.{MOST_BYTES, TOO_LONG};

use super::fault::SszFault;
use super::status;
use ssz_bytes::ByteRun;
use ssz_line::{Identifier, Index, LineFault, Steps, read_index, read_name, read_path};
use std::alloc::Global;

/// The name that a text is.
pub fn name_of(alloc: Global, text: &[u8]) -> Result<Identifier, SszFault>
    ensures { IsUnlessMemory result (name_in text.now) }
{
    match read_name(alloc, text) {
        Ok(name) => Ok(name),
        Err(LineFault::Syntax) => Err(SszFault::of(status::SYNTAX)),
        Err(LineFault::Memory) => Err(SszFault::of(status::NO_MEMORY)),
    }
}

/// The path that a text spells.
pub fn path_of(alloc: Global, text: &[u8]) -> Result<Steps, SszFault>
    ensures { IsUnlessMemory result (path_in text.now) }
{
    if text.len() > status::MOST_TEXT {
        return Err(SszFault::of(status::TOO_LONG));
    }
    match read_path(alloc, text) {
        Ok(steps) => Ok(steps),
        Err(LineFault::Syntax) => Err(SszFault::of(status::SYNTAX)),
        Err(LineFault::Memory) => Err(SszFault::of(status::NO_MEMORY)),
    }
}

/// The index that a text says.
pub fn index_of(alloc: Global, text: &[u8]) -> Result<Index, SszFault>
    ensures { IsUnlessMemory result (index_in text.now) }
{
    if text.len() > status::MOST_TEXT {
        return Err(SszFault::of(status::TOO_LONG));
    }
    match read_index(alloc, text) {
        Ok(index) => Ok(index),
        Err(LineFault::Syntax) => Err(SszFault::of(status::SYNTAX)),
        Err(LineFault::Memory) => Err(SszFault::of(status::NO_MEMORY)),
    }
}

/// A copy of bytes that are not too many.
pub fn copy_of(alloc: Global, bytes: &[u8]) -> Result<ByteRun, SszFault>
    ensures copied { IsUnlessMemory result (at_most TOO_LONG MOST_BYTES bytes.now) }
    ensures first { AnswersFirst (at_most TOO_LONG MOST_BYTES bytes.now) result }
    ensures few { IfOk result (λ copy. length copy < 2 ^ 32) }
{
    if bytes.len() > status::MOST_BYTES {
        return Err(SszFault::of(status::TOO_LONG));
    }
    Ok(ByteRun::copy_of(alloc, bytes)?)
}
