// What single words spell: each case of the grammar, and its neighbours that are refused.
ghost use Rattle.std.specs.Prelude.{◌<◌, length};

use super::types::schema;
use ssz_line::{
    Index, LineFault, Steps, Words, read_file, read_index, read_literal, read_name, read_path,
    read_selector,
};
use ssz_schema::{PathStep, Schema, TypeId};
use std::alloc::{AllocError, Global};
use std::test::Fail;

// The first step of a path and how many it has, a letter for the kind of step.
fn outline(alloc: Global, word: &[u8]) -> Result<(u8, usize), AllocError> {
    match read_path(alloc, word) {
        Ok(path) => {
            let steps = path.to_vec(alloc)?;
            Ok((first_kind(steps.as_slice()), steps.len()))
        }
        Err(LineFault::Syntax) => Ok((b'?', 0)),
        Err(LineFault::Memory) => Err(AllocError),
    }
}

fn first_kind(steps: &[PathStep]) -> u8 {
    match steps.first() {
        None => b'/',
        Some(PathStep::Field(_)) => b'f',
        Some(PathStep::Index(_)) => b'i',
        Some(PathStep::Len) => b'l',
        Some(PathStep::Selector) => b's',
        Some(PathStep::Option(_)) => b'o',
    }
}

const PATHS: [(&[u8], u8, usize); 20] = [
    (b"/", b'/', 0),
    (b"/a", b'f', 1),
    (b"/_9/0/#len", b'f', 3),
    (b"/0", b'i', 1),
    (b"/18446744073709551615", b'i', 1),
    (b"/#len", b'l', 1),
    (b"/#sel", b's', 1),
    (b"/#0/x", b'o', 2),
    (b"/#255", b'o', 1),
    (b"", b'?', 0),
    (b"a", b'?', 0),
    (b"//", b'?', 0),
    (b"/a/", b'?', 0),
    (b"/01", b'?', 0),
    (b"/18446744073709551616", b'?', 0),
    (b"/#256", b'?', 0),
    (b"/#00", b'?', 0),
    (b"/#", b'?', 0),
    (b"/#Len", b'?', 0),
    (b"/a-b", b'?', 0),
];

#[test]
fn paths(rt: HostRuntime) -> Result<(), Fail> {
    for (word, kind, count) in &PATHS {
        assert!(rt; outline(rt.alloc(), word)? == (*kind, *count), "{word:?}");
    }
    Ok(())
}

// Paths from a list of lists, and how many steps each has where it fits.
const FITTING: [(&[u8], Option<usize>); 9] = [
    (b"/", Some(0)),
    (b"/0", Some(1)),
    (b"/7/#len", Some(2)),
    (b"/7/3", Some(2)),
    (b"/8", None),
    (b"/7/4", None),
    (b"/a", None),
    (b"/7/3/0", None),
    (b"/0/0/0/0/0/0/0/0/0/0/0/0", None),
];

// How many steps a path from the type has, where it fits.
fn fitting(
    alloc: Global,
    schema: &Schema,
    id: TypeId,
    path: &Steps,
) -> Result<Option<usize>, LineFault>
    requires { id < length schema.now.trees }
{
    match path.fitting(alloc, schema, id)? {
        Some(steps) => Ok(Some(steps.len())),
        None => Ok(None),
    }
}

// Whether the word spells a path from the type that has so many steps, kept as a text and as a
// list.
fn fits(
    alloc: Global,
    schema: &Schema,
    id: TypeId,
    word: &[u8],
    count: Option<usize>,
) -> Result<bool, LineFault>
    requires { id < length schema.now.trees }
{
    let read = read_path(alloc, word)?;
    let listed = Steps::from_vec(read.to_vec(alloc)?);
    let from_text = fitting(alloc, schema, id, &read)?;
    let from_list = fitting(alloc, schema, id, &listed)?;
    Ok(from_text == count && from_list == count)
}

#[test]
fn paths_that_fit(rt: HostRuntime) -> Result<(), Fail> {
    let schema = schema(rt.alloc())?;
    let id = schema.find("Lists").ok_or("no lists")?;
    for (word, count) in &FITTING {
        assert!(rt; fits(rt.alloc(), &schema, id, word, *count)?, "{word:?}");
    }
    Ok(())
}

// Whether the word is read as the same name.
fn is_name(alloc: Global, word: &[u8]) -> bool {
    match read_name(alloc, word) {
        Ok(name) => name.as_name().as_bytes() == word,
        Err(_) => false,
    }
}

fn is_no_name(alloc: Global, word: &[u8]) -> bool {
    matches!(read_name(alloc, word), Err(LineFault::Syntax))
}

// Whether the word is read as the same name of a file.
fn is_file(alloc: Global, word: &[u8]) -> bool {
    match read_file(alloc, word) {
        Ok(file) => file.as_str().as_bytes() == word,
        Err(_) => false,
    }
}

fn is_no_file(alloc: Global, word: &[u8]) -> bool {
    matches!(read_file(alloc, word), Err(LineFault::Syntax))
}

// A word of so many letters.
fn letters(alloc: Global, count: u16) -> Result<Vec<u8>, AllocError> {
    let mut word = Vec::new(alloc);
    for _ in 0..count {
        word.push(b'a')?;
    }
    Ok(word)
}

// Whether a word of so many letters is a name, and whether it is one of a file.
fn kinds(alloc: Global, count: u16) -> Result<(bool, bool), AllocError> {
    let word = letters(alloc, count)?;
    Ok((is_name(alloc, &word), is_file(alloc, &word)))
}

const LENGTHS: [(u16, (bool, bool)); 6] = [
    (0, (false, false)),
    (1, (true, true)),
    (64, (true, true)),
    (65, (false, true)),
    (255, (false, true)),
    (256, (false, false)),
];

#[test]
fn lengths_of_names(rt: HostRuntime) -> Result<(), Fail> {
    for (count, wanted) in &LENGTHS {
        assert!(rt; kinds(rt.alloc(), *count)? == *wanted, "{count}");
    }
    Ok(())
}

#[test]
fn names(rt: HostRuntime) {
    assert!(rt; is_name(rt.alloc(), b"_aZ09"));
    for word in &[b"9a".as_slice(), b"a.b", b"a/b", b"\xc3\xa9"] {
        assert!(rt; is_no_name(rt.alloc(), word), "{word:?}");
    }
}

#[test]
fn files(rt: HostRuntime) {
    assert!(rt; is_file(rt.alloc(), b"../A-b_0.ssz"));
    for word in &[b"a:b".as_slice(), b"a\\b", b"a~", b"\xff"] {
        assert!(rt; is_no_file(rt.alloc(), word), "{word:?}");
    }
}

// Whether the word writes these bytes.
fn writes(alloc: Global, word: &[u8], bytes: &[u8]) -> bool {
    match read_literal(alloc, word) {
        Ok(run) => run.as_slice() == bytes,
        Err(_) => false,
    }
}

fn is_no_literal(alloc: Global, word: &[u8]) -> bool {
    matches!(read_literal(alloc, word), Err(LineFault::Syntax))
}

const NO_LITERALS: [&[u8]; 8] = [b"", b"0", b"00", b"0X00", b"x00", b"0x0", b"0x0g", b"0x 00"];

#[test]
fn literals(rt: HostRuntime) {
    assert!(rt; writes(rt.alloc(), b"0x00fFA9", b"\x00\xff\xa9"));
    assert!(rt; writes(rt.alloc(), b"0x", b""));
    for word in &NO_LITERALS {
        assert!(rt; is_no_literal(rt.alloc(), word), "{word:?}");
    }
}

// The number that the word writes, or how many steps its path has.
fn number(alloc: Global, word: &[u8]) -> Result<(u128, usize), LineFault> {
    match read_index(alloc, word)? {
        Index::Number(number) => Ok((number, 0)),
        Index::Path(path) => Ok((0, path.to_vec(alloc)?.len())),
    }
}

fn is_no_index(alloc: Global, word: &[u8]) -> bool {
    matches!(read_index(alloc, word), Err(LineFault::Syntax))
}

#[test]
fn numbers(rt: HostRuntime) -> Result<(), Fail> {
    let greatest = number(rt.alloc(), b"340282366920938463463374607431768211455")?;
    assert!(rt; greatest == (u128::MAX, 0));
    assert!(rt; number(rt.alloc(), b"/a/1")? == (0, 2));
    Ok(())
}

const NO_INDICES: [&[u8]; 3] = [b"340282366920938463463374607431768211456", b"07", b"a"];

#[test]
fn no_indices(rt: HostRuntime) {
    for word in &NO_INDICES {
        assert!(rt; is_no_index(rt.alloc(), word), "{word:?}");
    }
}

#[test]
fn selectors(rt: HostRuntime) {
    assert!(rt; read_selector(b"255") == Some(255));
    assert!(rt; read_selector(b"256").is_none());
}

// Whether the text has these words, and no more.
fn has_words(text: &[u8], wanted: &[&[u8]]) -> bool {
    let mut words = Words::new(text);
    for word in wanted {
        if words.next() != Some(*word) {
            return false;
        }
    }
    words.next().is_none()
}

#[test]
fn words(rt: HostRuntime) {
    assert!(rt; has_words(b"\t new  V\tT ", &[b"new", b"V", b"T"]));
    assert!(rt; has_words(b" \t ", &[]));
}
