// The texts and the bytes of a type of a number.
ghost use Rattle.std.specs.Result.{result_map_both};
ghost use Rattle.ssz_said.specs.Outcome.{AnswersFirst, IsUnlessMemory};
ghost use Rattle.ssz_typed.specs.Library.{type_for, type_in};
ghost use Rattle.ssz_typed.specs.Texts.{default_in, encoding_in, text_in};

use super::library::Library;
use ssz_said::SszFault;
use ssz_said::json::{bytes_of_text, default_bytes, text_of_bytes};
use std::alloc::Global;

/// The JSON text of the value of the type that some bytes encode.
pub fn text(
    alloc: Global,
    library: &Library,
    number: u64,
    bytes: &[u8],
) -> Result<Vec<u8>, SszFault>
    ensures exact { IsUnlessMemory (result_map_both (λ text. text.items) (λ fault. fault) result)
        (text_in library.now number bytes.now) }
    ensures first { AnswersFirst (type_for library.now number bytes.now) result }
{
    let id = library.type_for(number, bytes)?;
    text_of_bytes(alloc, library.schema(), id, bytes)
}

/// The encoding of the type's default.
pub fn default(alloc: Global, library: &Library, number: u64) -> Result<Vec<u8>, SszFault>
    ensures exact { IsUnlessMemory (result_map_both (λ bytes. bytes.items) (λ fault. fault) result)
        (default_in library.now number) }
    ensures first { AnswersFirst (type_in library.now number) result }
{
    let id = library.type_at(number)?;
    default_bytes(alloc, library.schema(), id)
}

/// The encoding of the value of the type of a number whose text some bytes are.
pub fn encoding(
    alloc: Global,
    library: &Library,
    number: u64,
    text: &[u8],
) -> Result<Vec<u8>, SszFault>
    ensures exact { IsUnlessMemory (result_map_both (λ bytes. bytes.items) (λ fault. fault) result)
        (encoding_in library.now number text.now) }
    ensures first { AnswersFirst (type_for library.now number text.now) result }
{
    let id = library.type_for(number, text)?;
    bytes_of_text(alloc, library.schema(), id, text)
}
