// Whole reads and writes, over readers and writers of std that may do a part at a time.
ghost use Rattle.std.specs.Prelude.{◌≡◌, ◌≢◌, ◌≤◌, ◌<◌, ◌+◌, ℕ};
ghost use Rattle.std.specs.Prelude.{List, [], length, vec_len, Ok, Err, Some, IfOk};
ghost use Rattle.std.specs.Option.{ForSome};
ghost use Rattle.std.specs.Io.KnownBytes.{Consumes, ReadConsumes, WriteAppends};
ghost use Rattle.ssz_outside.specs.Outcome.{Gets};
ghost use Rattle.ssz_outside.specs.Real.{WritesPiece};

use crate::outside::{GetFault, Got, PutFault};
use std::io::{ErrorKind, Read, Write};

// The most bytes that one read asks for.
const CHUNK: usize = 65536;

// One read, tried again where a signal interrupts it.
fn read_some<S: Read>(source: &mut S, chunk: &mut [u8]) -> Result<usize, GetFault>
    ensures bound { IfOk result (λ count. count ≤ length chunk.new) }
    ensures bytes { ReadConsumes (S.remaining source.old) (S.remaining source.new)
        result chunk.new }
    ensures never { result ≢ Err GetFault.Memory }
{
    for _ in 0..u64::MAX {
        match source.read(chunk) {
            Ok(count) => return Ok(count),
            Err(error) if error.kind() == ErrorKind::Interrupted => {}
            Err(_) => return Err(GetFault::Failed),
        }
    }
    Err(GetFault::Failed)
}

// How many bytes to ask for where this many more are allowed: one more tells of too many.
fn bytes_to_ask(allowed: u64) -> usize
    ensures some { 0 < result }
    ensures fits { result ≤ CHUNK }
    ensures most { result ≤ allowed + 1 }
{
    allowed.saturating_add(1).min(CHUNK as u64) as usize
}

// Reads to the end of input, or to max + 1 bytes. Each turn but the last takes a byte.
pub fn read_to_end<S: Read>(source: &mut S, into: &mut Vec<u8>, max: u64) -> Result<Got, GetFault>
    requires { into.old.items ≡ [] }
    ensures read { ForSome (S.remaining source.old)
        (λ left. Gets (Some left) max result into.new.items) }
    ensures bound { result ≡ Ok Got.Whole → vec_len into.new ≤ max }
    ensures takes { (bytes : List ℕ) × (length bytes ≤ max + 1)
        × Consumes (S.remaining source.old) (S.remaining source.new) bytes }
{
    let mut chunk = [0u8; CHUNK];
    loop {
        let allowed = max - into.len() as u64;
        let count = read_some(source, &mut chunk[..bytes_to_ask(allowed)])?;
        if count == 0 {
            return Ok(Got::Whole);
        }
        if count as u64 > allowed {
            return Ok(Got::TooLong);
        }
        if into.extend_from_slice(&chunk[..count]).is_err() {
            return Err(GetFault::Memory);
        }
    }
}

// One write of at least a byte, tried again where a signal interrupts it.
fn write_some<W: Write>(writer: &mut W, bytes: &[u8]) -> Result<usize, PutFault>
    ensures bound { IfOk result (λ count. (0 < count) × (count ≤ length bytes.now)) }
    ensures bytes { WriteAppends (W.contents writer.old) (W.contents writer.new) result bytes.now }
    ensures never { result ≢ Err PutFault.Memory }
{
    for _ in 0..u64::MAX {
        match writer.write(bytes) {
            Ok(0) => return Err(PutFault::Failed),
            Ok(count) => return Ok(count),
            Err(error) if error.kind() == ErrorKind::Interrupted => {}
            Err(_) => return Err(PutFault::Failed),
        }
    }
    Err(PutFault::Failed)
}

// Writes all the bytes, or a prefix of them and fails.
pub fn write_all<W: Write>(writer: &mut W, bytes: &[u8]) -> Result<(), PutFault>
    ensures { WritesPiece result bytes.now (W.contents writer.old) (W.contents writer.new) }
{
    let mut done = 0;
    while done < bytes.len() {
        done += write_some(writer, &bytes[done..])?;
    }
    Ok(())
}
