ghost use Rattle.std.specs.Prelude.{◌≡◌, ◌∷◌, drop};
ghost use Rattle.ssz_line.specs.Reading.{Reads};
ghost use Rattle.ssz_script.specs.Grammar.{statements, statement_of, line_of};

use super::forms;
use super::statement::Statement;
use ssz_line::{LineFault, Words};
use std::alloc::Global;

// The statement of one of the table's rows from `save` on.
fn statement_from_save(
    alloc: Global,
    keyword: &[u8],
    words: Words<'_>,
) -> Result<Statement, LineFault>
    ensures { Reads result (statement_of (drop 13 statements) (keyword.now ∷ words.entry)) }
{
    if keyword == b"save".as_slice() {
        forms::read_save(alloc, words)
    } else if keyword == b"gindex".as_slice() {
        forms::read_gindex(alloc, words)
    } else if keyword == b"prove".as_slice() {
        forms::read_prove(alloc, words)
    } else if keyword == b"hashes".as_slice() {
        forms::read_hashes(words)
    } else if keyword == b"upgrade".as_slice() {
        forms::read_upgrade(alloc, words)
    } else if keyword == b"json".as_slice() {
        forms::read_json(alloc, words)
    } else if keyword == b"loadjson".as_slice() {
        forms::read_loadjson(alloc, words)
    } else if keyword == b"compact".as_slice() {
        forms::read_compact(words)
    } else {
        Err(LineFault::Syntax)
    }
}

// The statement of one of the table's rows from `set` on.
fn statement_from_set(
    alloc: Global,
    keyword: &[u8],
    words: Words<'_>,
) -> Result<Statement, LineFault>
    ensures { Reads result (statement_of (drop 6 statements) (keyword.now ∷ words.entry)) }
{
    if keyword == b"set".as_slice() {
        forms::read_set(alloc, words)
    } else if keyword == b"append".as_slice() {
        forms::read_append(alloc, words)
    } else if keyword == b"pop".as_slice() {
        forms::read_pop(alloc, words)
    } else if keyword == b"choose".as_slice() {
        forms::read_choose(alloc, words)
    } else if keyword == b"root".as_slice() {
        forms::read_root(alloc, words)
    } else if keyword == b"bytes".as_slice() {
        forms::read_bytes(alloc, words)
    } else if keyword == b"len".as_slice() {
        forms::read_len(alloc, words)
    } else {
        statement_from_save(alloc, keyword, words)
    }
}

fn statement(alloc: Global, keyword: &[u8], words: Words<'_>) -> Result<Statement, LineFault>
    ensures { Reads result (statement_of statements (keyword.now ∷ words.entry)) }
{
    if keyword == b"new".as_slice() {
        forms::read_new(alloc, words)
    } else if keyword == b"lit".as_slice() {
        forms::read_lit(alloc, words)
    } else if keyword == b"load".as_slice() {
        forms::read_load(alloc, words)
    } else if keyword == b"fork".as_slice() {
        forms::read_fork(alloc, words)
    } else if keyword == b"drop".as_slice() {
        forms::read_drop(alloc, words)
    } else if keyword == b"list".as_slice() {
        forms::read_list(words)
    } else {
        statement_from_set(alloc, keyword, words)
    }
}

/// The statement that a line is, without its line feed: None exactly where it is blank or its
/// first word begins with `#`, `Syntax` exactly where it is no statement.
pub fn read_line(alloc: Global, line: &[u8]) -> Result<Option<Statement>, LineFault>
    ensures { Reads result (line_of statements line.now) }
{
    let mut words = Words::new(line);
    match words.next() {
        None => Ok(None),
        Some(word) => {
            if word.starts_with(b"#") {
                return Ok(None);
            }
            Ok(Some(statement(alloc, word, words)?))
        }
    }
}
