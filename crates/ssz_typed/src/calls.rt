// What the calls do, over what a handle holds.
ghost use Rattle.std.specs.Prelude.{◌≡◌, ◌<◌, ◌^◌, length, None, IfOk};
ghost use Rattle.std.specs.Result.{result_map_both};
ghost use Rattle.ssz_slices.specs.Written.{encoding_written};
ghost use Rattle.ssz_schema.specs.Unfolding.{type_of};
ghost use Rattle.ssz_value.specs.Faults.{first_fault};
ghost use Rattle.ssz_typed.specs.Calls.{checked_in, encoding_at, gindex_in, part_in, root_in, size_in, status_of_path, steps_in};
ghost use Rattle.ssz_typed.specs.Library.{type_for, type_in};
ghost use Rattle.ssz_typed.specs.Places.{place_in, stretch_at, stretch_of};
ghost use Rattle.ssz_said.specs.Outcome.{AnswersFirst, IsUnlessMemory, refused};
ghost use Rattle.ssz_typed.specs.Sharing.{schema_in};

use super::library::Library;
use ssz_checking::check;
use ssz_chunk::ShaPair;
use ssz_roots::root_of_bytes;
use ssz_said::{SszFault, SszIndex, halves, path_of, status};
use ssz_schema::{PathStep, Schema, TypeId};
use ssz_slices::{Encoding, Slice};
use ssz_value::PathFault;
use std::alloc::Global;

/// The type of the number, where the bytes encode a value of it.
pub fn checked(library: &Library, number: u64, bytes: &[u8]) -> Result<TypeId, SszFault>
    ensures exact { result ≡ checked_in library.now number bytes.now }
    ensures known { IfOk result (λ id. id < length (schema_in library.now).trees) }
    ensures short { IfOk result (λ id. length bytes.now < 2 ^ 32) }
    ensures faultless { IfOk result (λ id.
        first_fault (type_of (schema_in library.now) id) 0 bytes.now ≡ None) }
{
    let id = library.type_for(number, bytes)?;
    match check(library.schema(), id, bytes) {
        Some(fault) => Err(SszFault::invalid(fault)),
        None => Ok(id),
    }
}

/// The hash_tree_root of the value that the bytes encode.
pub fn root(library: &Library, number: u64, bytes: &[u8]) -> Result<[u8; 32], SszFault>
    ensures { result ≡ root_in library.now number bytes.now }
{
    let id = checked(library, number, bytes)?;
    let mut hasher = ShaPair::new();
    let root = root_of_bytes(
        library.schema(),
        id,
        bytes,
        &library.shared.zeros,
        &mut hasher,
    );
    Ok(root.0)
}

/// How many bytes each value of the type has; 0 where they differ.
pub fn size(library: &Library, number: u64) -> Result<u64, SszFault>
    ensures { result ≡ size_in library.now number }
{
    let id = library.type_at(number)?;
    Ok(library.schema().fixed_size(id).unwrap_or(0))
}

/// The generalized index of the path that a text spells.
pub fn gindex(
    alloc: Global,
    library: &Library,
    number: u64,
    text: &[u8],
) -> Result<SszIndex, SszFault>
    ensures exact { IsUnlessMemory result (gindex_in library.now number text.now) }
    ensures first { AnswersFirst (type_in library.now number) result }
{
    let id = library.type_at(number)?;
    let steps = path_of(alloc, text)?;
    match steps.gindex(alloc, library.schema(), id)? {
        Some(index) => Ok(halves(index.get())),
        None => Err(SszFault::of(status::BAD_PATH)),
    }
}

// The steps that a text spells, where they fit the type.
pub(crate) fn steps_of(
    alloc: Global,
    schema: &Schema,
    id: TypeId,
    text: &[u8],
) -> Result<Vec<PathStep>, SszFault>
    requires { id < length schema.now.trees }
    ensures { IsUnlessMemory (result_map_both (λ steps. steps.items) (λ fault. fault) result)
        (steps_in (type_of schema.now id) text.now) }
{
    let path = path_of(alloc, text)?;
    match path.fitting(alloc, schema, id)? {
        Some(steps) => Ok(steps),
        None => Err(SszFault::of(status::BAD_PATH)),
    }
}

// Why a path leads to no part.
fn path_fault(fault: PathFault) -> SszFault
    ensures { result ≡ refused (status_of_path fault) }
{
    match fault {
        PathFault::BadPath => SszFault::of(status::BAD_PATH),
        PathFault::Absent => SszFault::of(status::ABSENT),
    }
}

// The encoding of the part of a value at a path.
pub(crate) fn part_at<'s, 'b>(
    whole: &Slice<'s, 'b>,
    path: &[PathStep],
) -> Result<Encoding<'b>, SszFault>
    ensures { result_map_both encoding_written (λ fault. fault) result
        ≡ encoding_at whole.now path.now }
{
    match whole.at(path) {
        Ok(part) => Ok(part.encoding()),
        Err(fault) => Err(path_fault(fault)),
    }
}

/// The encoding of the part that a path leads to, in the value that the bytes encode.
pub fn part<'b>(
    alloc: Global,
    library: &Library,
    number: u64,
    bytes: &'b [u8],
    text: &[u8],
) -> Result<Encoding<'b>, SszFault>
    ensures exact { IsUnlessMemory (result_map_both encoding_written (λ fault. fault) result)
        (part_in library.now number bytes.now text.now) }
    ensures first { AnswersFirst (type_for library.now number bytes.now) result }
{
    let id = library.type_for(number, bytes)?;
    let steps = steps_of(alloc, library.schema(), id, text)?;
    match Slice::new(library.schema(), id, bytes) {
        Ok(whole) => part_at(&whole, steps.as_slice()),
        Err(fault) => Err(SszFault::invalid(fault)),
    }
}

/// Where the encoding of a part stands in that of the whole.
#[repr(C)]
#[derive(Clone, Copy, Debug, PartialEq, Eq)]
pub struct SszStretch {
    /// The number of its first byte, counted from 0.
    pub start: u64,
    /// How many bytes it has.
    pub len: u64,
}

// Where a part stands; None of a bit and of a length.
fn stretch_of<'s, 'b>(part: &Slice<'s, 'b>) -> Option<SszStretch>
    ensures { result ≡ stretch_of part.now }
{
    let start = part.start()?;
    let bytes = part.bytes()?;
    Some(SszStretch {
        start: start as u64,
        len: bytes.len() as u64,
    })
}

// Where the part of a value at a path stands.
pub(crate) fn stretch_at<'s, 'b>(
    whole: &Slice<'s, 'b>,
    path: &[PathStep],
) -> Result<SszStretch, SszFault>
    ensures { result ≡ stretch_at whole.now path.now }
{
    match whole.at(path) {
        Ok(part) => match stretch_of(&part) {
            Some(stretch) => Ok(stretch),
            None => Err(SszFault::of(status::NO_PLACE)),
        },
        Err(fault) => Err(path_fault(fault)),
    }
}

/// Where the part that a path leads to stands in the bytes that encode the value.
pub fn place(
    alloc: Global,
    library: &Library,
    number: u64,
    bytes: &[u8],
    text: &[u8],
) -> Result<SszStretch, SszFault>
    ensures exact { IsUnlessMemory result (place_in library.now number bytes.now text.now) }
    ensures first { AnswersFirst (type_for library.now number bytes.now) result }
{
    let id = library.type_for(number, bytes)?;
    let steps = steps_of(alloc, library.schema(), id, text)?;
    match Slice::new(library.schema(), id, bytes) {
        Ok(whole) => stretch_at(&whole, steps.as_slice()),
        Err(fault) => Err(SszFault::invalid(fault)),
    }
}
