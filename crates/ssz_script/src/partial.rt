ghost use Rattle.std.specs.Prelude.{◌≡◌, ◌∷◌};
ghost use Rattle.ssz_line.specs.Single.{literal};
ghost use Rattle.ssz_line.specs.Paths.{path};
ghost use Rattle.ssz_line.specs.Reading.{Reads};
ghost use Rattle.ssz_script.specs.Grammar.{alone, one, two, partial_statements, statement_of, line_of};
ghost use Rattle.ssz_script.specs.declared.partial.PartialStatement.TheVariants.{Get, Set, Root};

use ssz_bytes::ByteRun;
use ssz_line::{LineFault, Steps, Words, end, one_word, read_literal, read_path, two_words};
use std::alloc::Global;

/// A statement of a script for a partial tree.
#[derive(Debug, Drop)]
pub enum PartialStatement {
    /// `get P`: the encoding of the part at P.
    Get(Steps),
    /// `set P LIT`: the part at P becomes the literal's value.
    Set(Steps, ByteRun),
    /// `root`: the hash tree root.
    Root,
}

#[tactic(auto, using(crate::proofs::Shapes::not_one), unfolding(crate::specs::Grammar::one))]
fn read_get(alloc: Global, words: Words<'_>) -> Result<PartialStatement, LineFault>
    ensures { Reads result (one Get path words.entry) }
{
    let place = one_word(words)?;
    Ok(PartialStatement::Get(read_path(alloc, place)?))
}

#[tactic(auto, using(crate::proofs::Shapes::not_two), unfolding(crate::specs::Grammar::two))]
fn read_set(alloc: Global, words: Words<'_>) -> Result<PartialStatement, LineFault>
    ensures { Reads result (two Set path literal words.entry) }
{
    let (place, value) = two_words(words)?;
    let place = read_path(alloc, place)?;
    Ok(PartialStatement::Set(place, read_literal(alloc, value)?))
}

#[tactic(auto, unfolding(crate::specs::Grammar::alone))]
fn read_root(words: Words<'_>) -> Result<PartialStatement, LineFault>
    ensures { Reads result (alone Root words.entry) }
{
    end(words)?;
    Ok(PartialStatement::Root)
}

fn statement(alloc: Global, keyword: &[u8], words: Words<'_>) -> Result<PartialStatement, LineFault>
    ensures { Reads result (statement_of partial_statements (keyword.now ∷ words.entry)) }
{
    if keyword == b"get".as_slice() {
        read_get(alloc, words)
    } else if keyword == b"set".as_slice() {
        read_set(alloc, words)
    } else if keyword == b"root".as_slice() {
        read_root(words)
    } else {
        Err(LineFault::Syntax)
    }
}

/// The statement for a partial tree that a line is, without its line feed: None exactly where it
/// is blank or its first word begins with `#`, `Syntax` exactly where it is no such statement.
pub fn read_partial(alloc: Global, line: &[u8]) -> Result<Option<PartialStatement>, LineFault>
    ensures { Reads result (line_of partial_statements line.now) }
{
    let mut words = Words::new(line);
    match words.next() {
        None => Ok(None),
        Some(word) => {
            if word.starts_with(b"#") {
                return Ok(None);
            }
            Ok(Some(statement(alloc, word, words)?))
        }
    }
}
