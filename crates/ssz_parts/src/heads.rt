ghost use Rattle.std.specs.Prelude.{◌≡◌, ◌+◌, ◌-◌, ◌*◌, ◌<◌, ◌≤◌, ◌^◌, length, replicate, IfOk, Option, Some, None, nat_lt, if◌then◌else◌};
ghost use Rattle.std.specs.Option.{ForSome};
ghost use Rattle.std.specs.Result.{result_err};
ghost use Rattle.ssz_bytes.specs.Faults.{extra};
ghost use Rattle.ssz_value.specs.Faults.{length_fault, offset_at, count_fault, element_count, head_fault};
ghost use Rattle.ssz_parts.specs.Heads.{offset_fault};

use super::offsets::offset_at;
use ssz_bytes::Fault;
use ssz_offsets::{check_first, check_next};

/// The fault of bytes that are not exactly so many.
pub fn length_fault(size: u64, start: u64, bytes: &[u8]) -> Option<Fault>
    requires { start + length bytes.now < 2 ^ 32 }
    ensures { result ≡ length_fault size start bytes.now }
{
    let len = bytes.len() as u64;
    if len < size {
        return Some(Fault {
            code: Fault::SHORT,
            position: start,
        });
    }
    if size < len {
        return Some(Fault {
            code: Fault::EXTRA,
            position: start + size,
        });
    }
    None
}

/// The fault of the option None, which has no bytes.
pub fn none_fault(start: u64, bytes: &[u8]) -> Option<Fault>
    ensures { result ≡ (if nat_lt 0 (length bytes.now) then extra start else None) }
{
    if bytes.is_empty() {
        return None;
    }
    Some(Fault {
        code: Fault::EXTRA,
        position: start,
    })
}

/// How many elements a list has, or what makes their number wrong.
pub fn count_of(size: Option<u64>, limit: u64, start: u64, bytes: &[u8]) -> Result<u64, Fault>
    requires short { start + length bytes.now < 2 ^ 32 }
    requires some { ForSome size (λ z. 0 < z) }
    ensures ok { IfOk result (λ n. n ≡ element_count size bytes.now) }
    ensures fault { result_err result ≡ count_fault size limit start bytes.now }
{
    match size {
        Some(size) => fixed_count(size, limit, start, bytes),
        None => variable_count(limit, start, bytes),
    }
}

// The same of elements of this size.
fn fixed_count(size: u64, limit: u64, start: u64, bytes: &[u8]) -> Result<u64, Fault>
    requires { 0 < size }
    ensures ok { IfOk result (λ n. n ≡ element_count (Some size) bytes.now) }
    ensures fault { result_err result ≡ count_fault (Some size) limit start bytes.now }
{
    let len = bytes.len() as u64;
    if len % size != 0 {
        return Err(fault_at(Fault::RAGGED, start));
    }
    if limit < len / size {
        return Err(fault_at(Fault::TOO_MANY, start));
    }
    Ok(len / size)
}

// The same of elements of variable size, by the first offset.
fn variable_count(limit: u64, start: u64, bytes: &[u8]) -> Result<u64, Fault>
    ensures ok { IfOk result (λ n. n ≡ element_count None bytes.now) }
    ensures fault { result_err result ≡ count_fault None limit start bytes.now }
{
    let len = bytes.len() as u64;
    if len == 0 {
        return Ok(0);
    }
    if len < 4 {
        return Err(fault_at(Fault::SHORT, start));
    }
    let first = u64::from(offset_at(bytes, 0));
    if first == 0 || first % 4 != 0 {
        return Err(fault_at(Fault::FIRST_OFFSET, start));
    }
    if len < first {
        return Err(fault_at(Fault::OFFSET_RANGE, start));
    }
    if limit < first / 4 {
        return Err(fault_at(Fault::TOO_MANY, start));
    }
    Ok(first / 4)
}

fn fault_at(code: u8, position: u64) -> Fault
    ensures { result ≡ record { code = code; position = position } }
{
    Fault { code, position }
}

/// The first fault of the head of count variable-size parts.
pub fn offsets_fault(count: u64, start: u64, bytes: &[u8]) -> Option<Fault>
    requires few { count ≤ 2 ^ 32 }
    requires short { start + length bytes.now < 2 ^ 32 }
    ensures { result ≡ head_fault (replicate count None) start bytes.now }
{
    let len = bytes.len() as u64;
    if len < 4 * count {
        return Some(Fault {
            code: Fault::SHORT,
            position: start,
        });
    }
    if count == 0 {
        return length_fault(0, start, bytes);
    }
    let mut before = offset_at(bytes, 0);
    if let Err(fault) = check_first(before, (4 * count) as u32, start) {
        return Some(fault);
    }
    for i in 1..count {
        let place = 4 * i;
        let offset = offset_at(bytes, place as usize);
        if let Err(fault) = check_next(offset, before, len as u32, start + place) {
            return Some(fault);
        }
        before = offset;
    }
    None
}

/// The fault of an offset of a scope of this length whose fixed parts end at end: of the first one,
/// or of one with another before it.
pub fn offset_fault(
    before: Option<u32>,
    end: u32,
    len: u32,
    found: u32,
    position: u64,
) -> Option<Fault>
    ensures { result ≡ offset_fault before end len found position }
{
    match before {
        None => check_first(found, end, position).err(),
        Some(before) => check_next(found, before, len, position).err(),
    }
}
