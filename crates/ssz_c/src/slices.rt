// The calls of bytes that are checked once.
ghost use Rattle.std.specs.Prelude.{◌≡◌, None};
ghost use Rattle.std.specs.Result.{result_map_both};
ghost use Rattle.ssz_said.specs.declared.status.TheConstants.{NO_HANDLE};
ghost use Rattle.ssz_said.specs.Outcome.{IsCopiedUnlessMemory, IsGivenUnlessMemory, TellsFirst, need};
ghost use Rattle.ssz_typed.specs.Slices.{Opens, slice_part, slice_place};
ghost use Rattle.ssz_handles.specs.Reading.{freed};
ghost use Rattle.ssz_handles.specs.Slices.{IsOpened, slice_in};

use ssz_handles::giving::{copy, fail, give};
use ssz_handles::{SszSchema, SszSlice};
use ssz_said::{SszFault, status};
use ssz_typed::{CheckedBytes, Library, SszStretch};
use std::alloc::Global;

// The bytes of a type in a box, checked.
fn boxed(
    alloc: Global,
    library: &Library,
    number: u64,
    bytes: &[u8],
) -> Result<Box<CheckedBytes, Global>, SszFault>
    ensures { Opens library.now number bytes.now
        (result_map_both (λ slice. slice.value) (λ fault. fault) result) }
{
    let slice = CheckedBytes::open(alloc, library, number, bytes)?;
    Ok(Box::new(alloc, slice)?)
}

/// Checks bytes as a value of a type, keeps a copy of them and shares the schema. What the handle
/// held before is freed.
#[unsafe(no_mangle)]
pub extern "C" fn ssz_slice_open(
    alloc: Global,
    handle: &mut SszSlice,
    schema: &mut SszSchema,
    number: u64,
    bytes: &[u8],
    fault: &mut SszFault,
) -> u32
    ensures held { schema.new.held.value ≡ schema.old.held.value }
    ensures opened { IsOpened schema.old.held.value number bytes.now handle.new.held.value
        fault.new }
    ensures status { result ≡ fault.new.status }
{
    drop(handle.take(alloc));
    let Some(library) = schema.take(alloc) else {
        return fail(status::NO_HANDLE, fault);
    };
    let answer = boxed(alloc, &library, number, bytes);
    schema.put(library);
    match answer {
        Ok(slice) => {
            handle.put(slice);
            fail(status::OK, fault)
        }
        Err(why) => {
            *fault = why;
            why.status
        }
    }
}

/// The encoding of the part at a path.
#[unsafe(no_mangle)]
pub extern "C" fn ssz_slice_part(
    alloc: Global,
    handle: &mut SszSlice,
    path: &[u8],
    room: &mut [u8],
    len: &mut u64,
    fault: &mut SszFault,
) -> u32
    ensures held { handle.new.held.value ≡ handle.old.held.value }
    ensures answer { IsCopiedUnlessMemory room.old room.new len.old len.new fault.new
        (slice_in (λ slice. slice_part slice path.now) handle.old.held.value) }
    ensures first { TellsFirst (need NO_HANDLE handle.old.held.value) fault.new }
    ensures status { result ≡ fault.new.status }
{
    let Some(slice) = handle.take(alloc) else {
        return fail(status::NO_HANDLE, fault);
    };
    let status = match slice.part(alloc, path) {
        Ok(encoding) => copy(encoding.as_slice(), room, len, fault),
        Err(why) => {
            *fault = why;
            why.status
        }
    };
    handle.put(slice);
    status
}

/// Where the part at a path stands in the bytes.
#[unsafe(no_mangle)]
pub extern "C" fn ssz_slice_place(
    alloc: Global,
    handle: &mut SszSlice,
    path: &[u8],
    place: &mut SszStretch,
    fault: &mut SszFault,
) -> u32
    ensures held { handle.new.held.value ≡ handle.old.held.value }
    ensures answer { IsGivenUnlessMemory place.old place.new fault.new
        (slice_in (λ slice. slice_place slice path.now) handle.old.held.value) }
    ensures first { TellsFirst (need NO_HANDLE handle.old.held.value) fault.new }
    ensures status { result ≡ fault.new.status }
{
    let Some(slice) = handle.take(alloc) else {
        return fail(status::NO_HANDLE, fault);
    };
    let answer = slice.place(alloc, path);
    handle.put(slice);
    give(answer, place, fault)
}

/// Frees what the handle holds.
#[unsafe(no_mangle)]
pub extern "C" fn ssz_slice_close(alloc: Global, handle: &mut SszSlice) -> u32
    ensures empty { handle.new.held.value ≡ None }
    ensures status { result ≡ freed handle.old.held.value }
{
    match handle.take(alloc) {
        Some(slice) => {
            drop(slice);
            status::OK
        }
        None => status::NO_HANDLE,
    }
}
