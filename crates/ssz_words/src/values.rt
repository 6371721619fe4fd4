//! The values of arguments, and what single words write.
ghost use Rattle.std.specs.Prelude.{◌≡◌, IfOk, map};
ghost use Rattle.clap.specs.Words.{all_of, first_of};
ghost use Rattle.ssz_words.specs.Reading.{ReadsWords, ReadsBy};
ghost use Rattle.ssz_words.specs.Values.{is_digit_below, number_at, order_value, root_value, rows_in};

use crate::faults::WordsFault;
use crate::names::{FileName, FileNames, Order, PathText, TypeName};
use clap::ArgMatches;
use hex::FromHex;
use std::alloc::{AllocError, Global};

/// The name of a file that an argument has.
pub(crate) fn file_at(
    alloc: Global,
    found: &ArgMatches<'_>,
    id: &str,
) -> Result<FileName, WordsFault>
    ensures { ReadsWords result (first_of id.now (rows_in found.now)) }
{
    let word = word_at(found, id)?;
    Ok(FileName::new(String::from_str(alloc, word)?))
}

/// The name of a type that an argument has.
pub(crate) fn type_at(
    alloc: Global,
    found: &ArgMatches<'_>,
    id: &str,
) -> Result<TypeName, WordsFault>
    ensures { ReadsWords result (first_of id.now (rows_in found.now)) }
{
    let word = word_at(found, id)?;
    Ok(TypeName::new(String::from_str(alloc, word)?))
}

/// The text that an argument has, which is to be a path.
pub(crate) fn path_at(
    alloc: Global,
    found: &ArgMatches<'_>,
    id: &str,
) -> Result<PathText, WordsFault>
    ensures { ReadsWords result (first_of id.now (rows_in found.now)) }
{
    let word = word_at(found, id)?;
    Ok(PathText::new(String::from_str(alloc, word)?))
}

/// The number of 32 bits that an argument has.
pub(crate) fn number_at(found: &ArgMatches<'_>, id: &str) -> Result<u32, WordsFault>
    ensures { ReadsWords result (number_at 32 id.now (rows_in found.now)) }
{
    found.get_one::<u32>(id).ok_or(WordsFault::NotTaken)
}

/// The number of 64 bits that an argument has.
pub(crate) fn seed_at(found: &ArgMatches<'_>, id: &str) -> Result<u64, WordsFault>
    ensures { ReadsWords result (number_at 64 id.now (rows_in found.now)) }
{
    found.get_one::<u64>(id).ok_or(WordsFault::NotTaken)
}

/// The value of an argument.
pub(crate) fn word_at<'a>(found: &ArgMatches<'a>, id: &str) -> Result<&'a str, WordsFault>
    ensures { ReadsBy (λ w. w.now) result (first_of id.now (rows_in found.now)) }
{
    found.get_str(id).ok_or(WordsFault::NotTaken)
}

/// The values of an argument that may have several.
pub(crate) fn words_at<'m, 'a>(
    found: &'m ArgMatches<'a>,
    id: &str,
) -> Result<&'m [&'a str], WordsFault>
    ensures { ReadsBy (λ ws. map (λ w. w.now) ws.now) result (all_of id.now (rows_in found.now)) }
{
    found.get_strs(id).ok_or(WordsFault::NotTaken)
}

/// The words as names of files.
pub(crate) fn file_names(alloc: Global, words: &[&str]) -> Result<FileNames, AllocError>
    ensures { IfOk result (λ names. names ≡ map (λ w. w.now) words.now) }
{
    let mut names = Vec::new(alloc);
    for word in words {
        names.push(FileName::new(String::from_str(alloc, word)?))?;
    }
    Ok(FileNames::new(names))
}

/// The writers that a word names by digits, each below the count.
pub(crate) fn read_order(alloc: Global, word: &str, count: usize) -> Result<Order, WordsFault>
    ensures { ReadsWords result (order_value count word.now) }
{
    if word.is_empty() {
        return Err(WordsFault::NotTaken);
    }
    let mut writers = Vec::new(alloc);
    for digit in word.as_bytes() {
        if !is_digit_below(count, *digit) {
            return Err(WordsFault::NotTaken);
        }
        writers.push(*digit - b'0')?;
    }
    Ok(Order::new(writers))
}

fn is_digit_below(count: usize, byte: u8) -> bool
    ensures { result ≡ is_digit_below count byte }
{
    byte.is_ascii_digit() && usize::from(byte - b'0') < count
}

/// The bytes that 64 hexadecimal digits write, with or without `0x` before them.
pub(crate) fn read_root(word: &str) -> Option<[u8; 32]>
    ensures { result ≡ root_value word.now }
{
    let digits = word.strip_prefix("0x").unwrap_or(word);
    <[u8; 32] as FromHex>::from_hex(digits).ok()
}
