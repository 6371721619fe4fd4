ghost use Rattle.std.specs.Prelude.{◌≡◌, ℕ, IfOk, IsTrue};
ghost use Rattle.std.specs.List.{list_all};
ghost use Rattle.ssz_schema.specs.Names.{is_name_byte, is_name};
ghost use Rattle.ssz_line.specs.Single.{is_file, is_file_byte, name, file, literal, selector};
ghost use Rattle.ssz_line.specs.Reading.{Reads};

use super::fault::LineFault;
use super::file_name::FileName;
use super::identifier::Identifier;
use hex::FromHexError;
use ssz_bytes::ByteRun;
use ssz_decimal::number_of_8_bits;
use ssz_schema::{Name, is_name};
use std::alloc::Global;

// The longest name of a file, in bytes.
const LONGEST_FILE_NAME: usize = 255;

// A letter, a digit, `_`, `.`, `-` or `/`.
fn is_file_byte(byte: u8) -> bool
    ensures { result ≡ is_file_byte byte }
{
    matches!(byte, b'A'..=b'Z' | b'a'..=b'z' | b'0'..=b'9' | b'_' | b'.' | b'-' | b'/')
}

fn are_file_bytes(bytes: &[u8]) -> bool
    ensures { result ≡ list_all is_file_byte bytes.now }
{
    bytes.iter().all(|byte| is_file_byte(*byte))
}

fn is_file(word: &[u8]) -> bool
    ensures { result ≡ is_file word.now }
{
    !word.is_empty() && word.len() <= LONGEST_FILE_NAME && are_file_bytes(word)
}

/// The name that the word is: of a version, a type or a field.
pub fn read_name(alloc: Global, word: &[u8]) -> Result<Identifier, LineFault>
    ensures { Reads result (name word.now) }
{
    if !is_name(word) {
        return Err(LineFault::Syntax);
    }
    Ok(Identifier::new(Name::copy_of(alloc, word)?))
}

/// The file name that the word is.
pub fn read_file(alloc: Global, word: &[u8]) -> Result<FileName, LineFault>
    ensures { Reads result (file word.now) }
{
    if !is_file(word) {
        return Err(LineFault::Syntax);
    }
    Ok(FileName::new(Name::copy_of(alloc, word)?))
}

/// The bytes that the word writes as `0x` and two hexadecimal digits each, in either case.
#[tactic(auto, unfolding(crate::specs::Single::literal))]
pub fn read_literal(alloc: Global, word: &[u8]) -> Result<ByteRun, LineFault>
    ensures { Reads result (literal word.now) }
{
    let [b'0', b'x', digits @ ..] = word else {
        return Err(LineFault::Syntax);
    };
    match hex::decode(alloc, digits) {
        Ok(bytes) => Ok(ByteRun::from_bytes(bytes)),
        Err(FromHexError::OutOfMemory) => Err(LineFault::Memory),
        Err(_) => Err(LineFault::Syntax),
    }
}

/// The selector of a union that the word is: a decimal number from 0 to 255. None where it is none.
pub fn read_selector(word: &[u8]) -> Option<u8>
    ensures { result ≡ selector word.now }
{
    number_of_8_bits(word)
}
