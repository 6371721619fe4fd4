// Bytes that are checked once, and their parts.
ghost use Rattle.std.specs.Prelude.{◌≡◌, ◌<◌, ◌^◌, length, None, IfOk};
ghost use Rattle.std.specs.Result.{result_map_both};
ghost use Rattle.ssz_schema.specs.Unfolding.{type_of};
ghost use Rattle.ssz_slices.specs.Written.{encoding_written};
ghost use Rattle.ssz_value.specs.Faults.{first_fault};
ghost use Rattle.ssz_said.specs.Outcome.{IsUnlessMemory};
ghost use Rattle.ssz_typed.specs.Sharing.{schema_in, slice_schema};
ghost use Rattle.ssz_typed.specs.Slices.{Opens, slice_part, slice_place};

use super::calls::{SszStretch, checked, part_at, steps_of, stretch_at};
use super::checked_bytes::CheckedBytes;
use super::library::Library;
use ssz_bytes::ByteRun;
use ssz_said::SszFault;
use ssz_schema::TypeId;
use ssz_slices::{Encoding, Slice};
use std::alloc::{AllocError, Global};
use std::sync::Arc;

impl CheckedBytes {
    // A copy of bytes without a fault, which shares their schema.
    fn copy_of(
        alloc: Global,
        library: &Library,
        id: TypeId,
        bytes: &[u8],
    ) -> Result<CheckedBytes, AllocError>
        requires known { id < length (schema_in library.now).trees }
        requires short { length bytes.now < 2 ^ 32 }
        requires faultless { first_fault (type_of (schema_in library.now) id) 0 bytes.now ≡ None }
        ensures schema { IfOk result (λ slice. slice_schema slice ≡ schema_in library.now) }
        ensures kind { IfOk result (λ slice. slice.id ≡ id) }
        ensures bytes { IfOk result (λ slice. slice.bytes ≡ bytes.now) }
    {
        let bytes = ByteRun::copy_of(alloc, bytes)?;
        let shared = Arc::try_clone(&library.shared)?;
        Ok(CheckedBytes { shared, id, bytes })
    }

    /// Checks the bytes as a value of the type of a number, and copies them.
    pub fn open(
        alloc: Global,
        library: &Library,
        number: u64,
        bytes: &[u8],
    ) -> Result<CheckedBytes, SszFault>
        ensures { Opens library.now number bytes.now result }
    {
        let id = checked(library, number, bytes)?;
        Ok(CheckedBytes::copy_of(alloc, library, id, bytes)?)
    }

    /// The encoding of the part that a path leads to.
    pub fn part<'b>(&'b self, alloc: Global, text: &[u8]) -> Result<Encoding<'b>, SszFault>
        ensures { IsUnlessMemory (result_map_both encoding_written (λ fault. fault) result)
            (slice_part self.now text.now) }
    {
        let steps = steps_of(alloc, &self.shared.schema, self.id, text)?;
        let whole = Slice::whole(&self.shared.schema, self.id, self.bytes.as_slice());
        part_at(&whole, steps.as_slice())
    }

    /// Where that part stands in the bytes.
    pub fn place(&self, alloc: Global, text: &[u8]) -> Result<SszStretch, SszFault>
        ensures { IsUnlessMemory result (slice_place self.now text.now) }
    {
        let steps = steps_of(alloc, &self.shared.schema, self.id, text)?;
        let whole = Slice::whole(&self.shared.schema, self.id, self.bytes.as_slice());
        stretch_at(&whole, steps.as_slice())
    }
}
