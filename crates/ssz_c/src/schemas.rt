// The calls of a schema.
ghost use Rattle.std.specs.Prelude.{◌≡◌, None};
ghost use Rattle.ssz_said.specs.Outcome.{IsCopied, IsCopiedUnlessMemory, IsGivenBack, IsGivenUnlessMemory, IsSaid, TellsFirst};
ghost use Rattle.ssz_typed.specs.Calls.{checked_in, root_in, gindex_in, part_in, size_in};
ghost use Rattle.ssz_typed.specs.Fields.{field_in, fields_of_type};
ghost use Rattle.ssz_typed.specs.Library.{type_for, type_in};
ghost use Rattle.ssz_typed.specs.Places.{place_in};
ghost use Rattle.ssz_typed.specs.Texts.{default_in, encoding_in, text_in};
ghost use Rattle.ssz_handles.specs.Reading.{IsRead, IsNumbered, IsSharing, freed, held_in};

use ssz_handles::giving::{copy, fail, give, say};
use ssz_handles::{SszSchema, reading};
use ssz_said::{SszFault, SszIndex, status};
use ssz_typed::{SszStretch, calls, naming_fields, texts};
use std::alloc::Global;

/// Reads a schema. What the handle held before is freed.
#[unsafe(no_mangle)]
pub extern "C" fn ssz_schema_read(
    alloc: Global,
    handle: &mut SszSchema,
    bytes: &[u8],
    fault: &mut SszFault,
) -> u32
    ensures read { IsRead handle.new.held.value fault.new bytes.now }
    ensures status { result ≡ fault.new.status }
{
    drop(handle.take(alloc));
    match reading::boxed(alloc, bytes) {
        Ok(library) => {
            handle.put(library);
            fail(status::OK, fault)
        }
        Err(why) => {
            *fault = why;
            why.status
        }
    }
}

/// Shares the schema that another handle holds, in which a type then has the same number. What the
/// handle held before is freed.
#[unsafe(no_mangle)]
pub extern "C" fn ssz_schema_share(
    alloc: Global,
    handle: &mut SszSchema,
    schema: &mut SszSchema,
    fault: &mut SszFault,
) -> u32
    ensures held { schema.new.held.value ≡ schema.old.held.value }
    ensures shared { IsSharing schema.old.held.value handle.new.held.value fault.new }
    ensures status { result ≡ fault.new.status }
{
    drop(handle.take(alloc));
    let Some(library) = schema.take(alloc) else {
        return fail(status::NO_HANDLE, fault);
    };
    let answer = reading::shared(alloc, &library);
    schema.put(library);
    match answer {
        Ok(library) => {
            handle.put(library);
            fail(status::OK, fault)
        }
        Err(_) => fail(status::NO_MEMORY, fault),
    }
}

/// Frees what the handle holds.
#[unsafe(no_mangle)]
pub extern "C" fn ssz_schema_free(alloc: Global, handle: &mut SszSchema) -> u32
    ensures empty { handle.new.held.value ≡ None }
    ensures status { result ≡ freed handle.old.held.value }
{
    match handle.take(alloc) {
        Some(library) => {
            drop(library);
            status::OK
        }
        None => status::NO_HANDLE,
    }
}

/// The number of the type of a name.
#[unsafe(no_mangle)]
pub extern "C" fn ssz_type(
    alloc: Global,
    handle: &mut SszSchema,
    name: &[u8],
    number: &mut u64,
    fault: &mut SszFault,
) -> u32
    ensures numbered { IsNumbered name.now handle.old.held.value handle.new.held.value number.old
        number.new fault.new }
    ensures status { result ≡ fault.new.status }
{
    let Some(mut library) = handle.take(alloc) else {
        return fail(status::NO_HANDLE, fault);
    };
    let answer = library.number_of(name);
    handle.put(library);
    give(answer, number, fault)
}

/// How many bytes each value of the type has; 0 where they differ.
#[unsafe(no_mangle)]
pub extern "C" fn ssz_size(
    alloc: Global,
    handle: &mut SszSchema,
    number: u64,
    size: &mut u64,
    fault: &mut SszFault,
) -> u32
    ensures held { handle.new.held.value ≡ handle.old.held.value }
    ensures answer { IsGivenBack size.old size.new fault.new
        (held_in (λ library. size_in library number) handle.old.held.value) }
    ensures status { result ≡ fault.new.status }
{
    let Some(library) = handle.take(alloc) else {
        return fail(status::NO_HANDLE, fault);
    };
    let answer = calls::size(&library, number);
    handle.put(library);
    give(answer, size, fault)
}

/// How many fields the type has: 0 where it is no container.
#[unsafe(no_mangle)]
pub extern "C" fn ssz_fields(
    alloc: Global,
    handle: &mut SszSchema,
    number: u64,
    count: &mut u64,
    fault: &mut SszFault,
) -> u32
    ensures held { handle.new.held.value ≡ handle.old.held.value }
    ensures answer { IsGivenBack count.old count.new fault.new
        (held_in (λ library. fields_of_type library number) handle.old.held.value) }
    ensures status { result ≡ fault.new.status }
{
    let Some(library) = handle.take(alloc) else {
        return fail(status::NO_HANDLE, fault);
    };
    let answer = naming_fields::fields(&library, number);
    handle.put(library);
    give(answer, count, fault)
}

/// The name of the field at a place of the type.
///
/// As many parameters as the call of C has arguments.
#[unsafe(no_mangle)]
pub extern "C" fn ssz_field(
    alloc: Global,
    handle: &mut SszSchema,
    number: u64,
    place: u64,
    room: &mut [u8],
    len: &mut u64,
    fault: &mut SszFault,
) -> u32
    ensures held { handle.new.held.value ≡ handle.old.held.value }
    ensures answer { IsCopied room.old room.new len.old len.new fault.new
        (held_in (λ library. field_in library number place) handle.old.held.value) }
    ensures status { result ≡ fault.new.status }
{
    let Some(library) = handle.take(alloc) else {
        return fail(status::NO_HANDLE, fault);
    };
    let status = match naming_fields::field(&library, number, place) {
        Ok(name) => copy(name, room, len, fault),
        Err(why) => {
            *fault = why;
            why.status
        }
    };
    handle.put(library);
    status
}

/// The encoding of the default of the type.
#[unsafe(no_mangle)]
pub extern "C" fn ssz_default(
    alloc: Global,
    handle: &mut SszSchema,
    number: u64,
    room: &mut [u8],
    len: &mut u64,
    fault: &mut SszFault,
) -> u32
    ensures held { handle.new.held.value ≡ handle.old.held.value }
    ensures answer { IsCopiedUnlessMemory room.old room.new len.old len.new fault.new
        (held_in (λ library. default_in library number) handle.old.held.value) }
    ensures first { TellsFirst (held_in (λ library. type_in library number)
        handle.old.held.value) fault.new }
    ensures status { result ≡ fault.new.status }
{
    let Some(library) = handle.take(alloc) else {
        return fail(status::NO_HANDLE, fault);
    };
    let answer = texts::default(alloc, &library, number);
    handle.put(library);
    match answer {
        Ok(bytes) => copy(bytes.as_slice(), room, len, fault),
        Err(why) => {
            *fault = why;
            why.status
        }
    }
}

/// The first fault of the bytes as a value of the type.
#[unsafe(no_mangle)]
pub extern "C" fn ssz_check(
    alloc: Global,
    handle: &mut SszSchema,
    number: u64,
    bytes: &[u8],
    fault: &mut SszFault,
) -> u32
    ensures held { handle.new.held.value ≡ handle.old.held.value }
    ensures answer { IsSaid fault.new (held_in (λ library. checked_in library number bytes.now)
        handle.old.held.value) }
    ensures status { result ≡ fault.new.status }
{
    let Some(library) = handle.take(alloc) else {
        return fail(status::NO_HANDLE, fault);
    };
    let answer = calls::checked(&library, number, bytes);
    handle.put(library);
    say(answer, fault)
}

/// The hash_tree_root of the value of the type that the bytes encode.
#[unsafe(no_mangle)]
pub extern "C" fn ssz_root(
    alloc: Global,
    handle: &mut SszSchema,
    number: u64,
    bytes: &[u8],
    root: &mut [u8; 32],
    fault: &mut SszFault,
) -> u32
    ensures held { handle.new.held.value ≡ handle.old.held.value }
    ensures answer { IsGivenBack root.old root.new fault.new
        (held_in (λ library. root_in library number bytes.now) handle.old.held.value) }
    ensures status { result ≡ fault.new.status }
{
    let Some(library) = handle.take(alloc) else {
        return fail(status::NO_HANDLE, fault);
    };
    let answer = calls::root(&library, number, bytes);
    handle.put(library);
    give(answer, root, fault)
}

/// The generalized index of the path that a text spells.
#[unsafe(no_mangle)]
pub extern "C" fn ssz_gindex(
    alloc: Global,
    handle: &mut SszSchema,
    number: u64,
    path: &[u8],
    index: &mut SszIndex,
    fault: &mut SszFault,
) -> u32
    ensures held { handle.new.held.value ≡ handle.old.held.value }
    ensures answer { IsGivenUnlessMemory index.old index.new fault.new
        (held_in (λ library. gindex_in library number path.now) handle.old.held.value) }
    ensures first { TellsFirst (held_in (λ library. type_in library number)
        handle.old.held.value) fault.new }
    ensures status { result ≡ fault.new.status }
{
    let Some(library) = handle.take(alloc) else {
        return fail(status::NO_HANDLE, fault);
    };
    let answer = calls::gindex(alloc, &library, number, path);
    handle.put(library);
    give(answer, index, fault)
}

/// The encoding of the part at a path of the value that the bytes encode.
///
/// As many parameters as the call of C has arguments.
#[unsafe(no_mangle)]
pub extern "C" fn ssz_part(
    alloc: Global,
    handle: &mut SszSchema,
    number: u64,
    bytes: &[u8],
    path: &[u8],
    room: &mut [u8],
    len: &mut u64,
    fault: &mut SszFault,
) -> u32
    ensures held { handle.new.held.value ≡ handle.old.held.value }
    ensures answer { IsCopiedUnlessMemory room.old room.new len.old len.new fault.new
        (held_in (λ library. part_in library number bytes.now path.now) handle.old.held.value) }
    ensures first { TellsFirst (held_in (λ library. type_for library number bytes.now)
        handle.old.held.value) fault.new }
    ensures status { result ≡ fault.new.status }
{
    let Some(library) = handle.take(alloc) else {
        return fail(status::NO_HANDLE, fault);
    };
    let answer = calls::part(alloc, &library, number, bytes, path);
    handle.put(library);
    match answer {
        Ok(encoding) => copy(encoding.as_slice(), room, len, fault),
        Err(why) => {
            *fault = why;
            why.status
        }
    }
}

/// Where the part at a path stands in the bytes that encode the value.
///
/// As many parameters as the call of C has arguments.
#[unsafe(no_mangle)]
pub extern "C" fn ssz_place(
    alloc: Global,
    handle: &mut SszSchema,
    number: u64,
    bytes: &[u8],
    path: &[u8],
    place: &mut SszStretch,
    fault: &mut SszFault,
) -> u32
    ensures held { handle.new.held.value ≡ handle.old.held.value }
    ensures answer { IsGivenUnlessMemory place.old place.new fault.new
        (held_in (λ library. place_in library number bytes.now path.now) handle.old.held.value) }
    ensures first { TellsFirst (held_in (λ library. type_for library number bytes.now)
        handle.old.held.value) fault.new }
    ensures status { result ≡ fault.new.status }
{
    let Some(library) = handle.take(alloc) else {
        return fail(status::NO_HANDLE, fault);
    };
    let answer = calls::place(alloc, &library, number, bytes, path);
    handle.put(library);
    give(answer, place, fault)
}

/// The encoding of the value of the type whose JSON text some bytes are.
///
/// As many parameters as the call of C has arguments.
#[unsafe(no_mangle)]
pub extern "C" fn ssz_of_json(
    alloc: Global,
    handle: &mut SszSchema,
    number: u64,
    text: &[u8],
    room: &mut [u8],
    len: &mut u64,
    fault: &mut SszFault,
) -> u32
    ensures held { handle.new.held.value ≡ handle.old.held.value }
    ensures answer { IsCopiedUnlessMemory room.old room.new len.old len.new fault.new
        (held_in (λ library. encoding_in library number text.now) handle.old.held.value) }
    ensures first { TellsFirst (held_in (λ library. type_for library number text.now)
        handle.old.held.value) fault.new }
    ensures status { result ≡ fault.new.status }
{
    let Some(library) = handle.take(alloc) else {
        return fail(status::NO_HANDLE, fault);
    };
    let answer = texts::encoding(alloc, &library, number, text);
    handle.put(library);
    match answer {
        Ok(bytes) => copy(bytes.as_slice(), room, len, fault),
        Err(why) => {
            *fault = why;
            why.status
        }
    }
}

/// The JSON text of the value of the type that the bytes encode.
///
/// As many parameters as the call of C has arguments.
#[unsafe(no_mangle)]
pub extern "C" fn ssz_to_json(
    alloc: Global,
    handle: &mut SszSchema,
    number: u64,
    bytes: &[u8],
    room: &mut [u8],
    len: &mut u64,
    fault: &mut SszFault,
) -> u32
    ensures held { handle.new.held.value ≡ handle.old.held.value }
    ensures answer { IsCopiedUnlessMemory room.old room.new len.old len.new fault.new
        (held_in (λ library. text_in library number bytes.now) handle.old.held.value) }
    ensures first { TellsFirst (held_in (λ library. type_for library number bytes.now)
        handle.old.held.value) fault.new }
    ensures status { result ≡ fault.new.status }
{
    let Some(library) = handle.take(alloc) else {
        return fail(status::NO_HANDLE, fault);
    };
    let answer = texts::text(alloc, &library, number, bytes);
    handle.put(library);
    match answer {
        Ok(text) => copy(text.as_slice(), room, len, fault),
        Err(why) => {
            *fault = why;
            why.status
        }
    }
}
