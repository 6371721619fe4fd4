// The calls that tell what the types of a schema are.
ghost use Rattle.std.specs.Prelude.{◌≡◌};
ghost use Rattle.ssz_said.specs.declared.status.TheConstants.{NO_HANDLE};
ghost use Rattle.ssz_said.specs.Outcome.{IsCopied, IsCopiedUnlessMemory, IsGivenBack, TellsFirst, need};
ghost use Rattle.ssz_typed.specs.Forms.{form_in, limit_in, parts_in};
ghost use Rattle.ssz_typed.specs.Names.{names_in, type_name_in, types_in};
ghost use Rattle.ssz_handles.specs.Reading.{IsPartNumbered, held_in};

use ssz_handles::SszSchema;
use ssz_handles::giving::{copy, fail, give};
use ssz_said::{SszFault, status};
use ssz_typed::{forms, names};
use std::alloc::Global;

/// The form of the type, by its number.
#[unsafe(no_mangle)]
pub extern "C" fn ssz_form(
    alloc: Global,
    handle: &mut SszSchema,
    number: u64,
    form: &mut u32,
    fault: &mut SszFault,
) -> u32
    ensures held { handle.new.held.value ≡ handle.old.held.value }
    ensures answer { IsGivenBack form.old form.new fault.new
        (held_in (λ library. form_in library number) handle.old.held.value) }
    ensures status { result ≡ fault.new.status }
{
    let Some(library) = handle.take(alloc) else {
        return fail(status::NO_HANDLE, fault);
    };
    let answer = forms::form(&library, number);
    handle.put(library);
    give(answer, form, fault)
}

/// The length of a vector or bitvector, or the limit of a list or bitlist.
#[unsafe(no_mangle)]
pub extern "C" fn ssz_limit(
    alloc: Global,
    handle: &mut SszSchema,
    number: u64,
    limit: &mut u64,
    fault: &mut SszFault,
) -> u32
    ensures held { handle.new.held.value ≡ handle.old.held.value }
    ensures answer { IsGivenBack limit.old limit.new fault.new
        (held_in (λ library. limit_in library number) handle.old.held.value) }
    ensures status { result ≡ fault.new.status }
{
    let Some(library) = handle.take(alloc) else {
        return fail(status::NO_HANDLE, fault);
    };
    let answer = forms::limit(&library, number);
    handle.put(library);
    give(answer, limit, fault)
}

/// How many types the type is made of: its fields, its options, or the one of its elements.
#[unsafe(no_mangle)]
pub extern "C" fn ssz_parts(
    alloc: Global,
    handle: &mut SszSchema,
    number: u64,
    count: &mut u64,
    fault: &mut SszFault,
) -> u32
    ensures held { handle.new.held.value ≡ handle.old.held.value }
    ensures answer { IsGivenBack count.old count.new fault.new
        (held_in (λ library. parts_in library number) handle.old.held.value) }
    ensures status { result ≡ fault.new.status }
{
    let Some(library) = handle.take(alloc) else {
        return fail(status::NO_HANDLE, fault);
    };
    let answer = forms::parts(&library, number);
    handle.put(library);
    give(answer, count, fault)
}

/// The number of the type at a place of those that a type is made of.
#[unsafe(no_mangle)]
pub extern "C" fn ssz_part_type(
    alloc: Global,
    handle: &mut SszSchema,
    number: u64,
    place: u64,
    part: &mut u64,
    fault: &mut SszFault,
) -> u32
    ensures numbered { IsPartNumbered number place handle.old.held.value handle.new.held.value
        part.old part.new fault.new }
    ensures status { result ≡ fault.new.status }
{
    let Some(mut library) = handle.take(alloc) else {
        return fail(status::NO_HANDLE, fault);
    };
    let answer = library.number_of_part(number, place);
    handle.put(library);
    give(answer, part, fault)
}

/// How many types have a number.
#[unsafe(no_mangle)]
pub extern "C" fn ssz_types(
    alloc: Global,
    handle: &mut SszSchema,
    count: &mut u64,
    fault: &mut SszFault,
) -> u32
    ensures held { handle.new.held.value ≡ handle.old.held.value }
    ensures answer { IsGivenBack count.old count.new fault.new
        (held_in (λ library. types_in library) handle.old.held.value) }
    ensures status { result ≡ fault.new.status }
{
    let Some(library) = handle.take(alloc) else {
        return fail(status::NO_HANDLE, fault);
    };
    let types = library.found.len() as u64;
    handle.put(library);
    give(Ok(types), count, fault)
}

/// All names in byte order, a line feed behind each.
#[unsafe(no_mangle)]
pub extern "C" fn ssz_names(
    alloc: Global,
    handle: &mut SszSchema,
    room: &mut [u8],
    len: &mut u64,
    fault: &mut SszFault,
) -> u32
    ensures held { handle.new.held.value ≡ handle.old.held.value }
    ensures answer { IsCopiedUnlessMemory room.old room.new len.old len.new fault.new
        (held_in (λ library. names_in library) handle.old.held.value) }
    ensures first { TellsFirst (need NO_HANDLE handle.old.held.value) fault.new }
    ensures status { result ≡ fault.new.status }
{
    let Some(library) = handle.take(alloc) else {
        return fail(status::NO_HANDLE, fault);
    };
    let answer = names::names(alloc, &library);
    handle.put(library);
    match answer {
        Ok(names) => copy(names.as_slice(), room, len, fault),
        Err(why) => {
            *fault = why;
            why.status
        }
    }
}

/// The first name of the type in byte order.
#[unsafe(no_mangle)]
pub extern "C" fn ssz_type_name(
    alloc: Global,
    handle: &mut SszSchema,
    number: u64,
    room: &mut [u8],
    len: &mut u64,
    fault: &mut SszFault,
) -> u32
    ensures held { handle.new.held.value ≡ handle.old.held.value }
    ensures answer { IsCopied room.old room.new len.old len.new fault.new
        (held_in (λ library. type_name_in library number) handle.old.held.value) }
    ensures status { result ≡ fault.new.status }
{
    let Some(library) = handle.take(alloc) else {
        return fail(status::NO_HANDLE, fault);
    };
    let status = match names::type_name(&library, number) {
        Ok(name) => copy(name, room, len, fault),
        Err(why) => {
            *fault = why;
            why.status
        }
    };
    handle.put(library);
    status
}
