ghost use Rattle.std.specs.Prelude.{◌≡◌, ◌+◌, ◌-◌, ◌*◌, ◌<◌, ◌≤◌, ◌^◌, [], length, replicate, slice_index_or, slice_range, None};
ghost use Rattle.std.specs.Option.{ForSome};
ghost use Rattle.ssz_schema.specs.Legal.{IsSize};
ghost use Rattle.ssz_value.specs.Faults.{head_fault, element_count, count_fault, offset_at, next_offset};
ghost use Rattle.ssz_value.specs.Reading.{elements_in};

use super::offsets::offset_at;

/// How many elements of this size (None for variable-size ones) a list has, whose bytes have no
/// fault.
pub fn element_count(size: Option<u64>, limit: u64, bytes: &[u8]) -> u64
    requires size { ForSome size IsSize }
    requires faultless { count_fault size limit 0 bytes.now ≡ None }
    ensures { result ≡ element_count size bytes.now }
{
    match size {
        Some(size) => bytes.len() as u64 / size,
        None => {
            if bytes.is_empty() {
                0
            } else {
                u64::from(offset_at(bytes, 0)) / 4
            }
        }
    }
}

/// The bytes of element i of count elements of this size (None for variable-size ones), whose head
/// has no fault.
pub fn element_at<'a>(size: Option<u64>, count: u64, i: u64, bytes: &'a [u8]) -> &'a [u8]
    requires head { head_fault (replicate count size) 0 bytes.now ≡ None }
    requires below { i < count }
    requires short { length bytes.now < 2 ^ 32 }
    ensures { result.now ≡ slice_index_or (elements_in size count bytes.now) i [] }
{
    match size {
        Some(size) => fixed_at(size, i, bytes),
        None => variable_at(count, i, bytes),
    }
}

// The bytes of element i, where all have this size.
fn fixed_at<'a>(size: u64, i: u64, bytes: &'a [u8]) -> &'a [u8]
    requires room { i * size + size ≤ length bytes.now }
    requires short { length bytes.now < 2 ^ 32 }
    ensures { result.now ≡ slice_range bytes.now (i * size) (i * size + size) }
{
    let from = (i * size) as usize;
    let part = &bytes[from..from + size as usize];
    part
}

// The bytes of element i of count, which have offsets.
fn variable_at<'a>(count: u64, i: u64, bytes: &'a [u8]) -> &'a [u8]
    requires head { head_fault (replicate count None) 0 bytes.now ≡ None }
    requires below { i < count }
    requires short { length bytes.now < 2 ^ 32 }
    ensures { result.now ≡ slice_range bytes.now (offset_at bytes.now (4 * i))
        (next_offset (replicate (count - (i + 1)) None) (4 * i + 4) bytes.now) }
{
    let from = offset_at(bytes, (4 * i) as usize) as usize;
    let part = &bytes[from..end_of_part(count, i, bytes)];
    part
}

/// Where element i of count variable-size ones ends: at the next offset, or at the end.
pub fn end_of_part(count: u64, i: u64, bytes: &[u8]) -> usize
    requires below { i < count }
    requires room { 4 * count ≤ length bytes.now }
    ensures { result ≡ next_offset (replicate (count - (i + 1)) None) (4 * i + 4) bytes.now }
{
    if i + 1 < count {
        offset_at(bytes, (4 * i + 4) as usize) as usize
    } else {
        bytes.len()
    }
}
