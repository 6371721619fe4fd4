ghost use Rattle.std.specs.Prelude.{◌≡◌, ℕ, ◌<◌, ◌≤◌, ◌∷◌, ◌==◌, [], true, false, length, slice_index, MatchOption};
ghost use Rattle.std.specs.Str.Lines.{lines, strip_carriage_return};

use memchr::memchr;
use std::marker::Model;

// Where the first line feed lies, or the text's length.
fn line_end(text: &[u8]) -> usize
    ensures within { result ≤ length text.now }
    ensures before { (k : ℕ) → k < result → (slice_index text.now k == 10) ≡ false }
    ensures at { result < length text.now → (slice_index text.now result == 10) ≡ true }
{
    memchr(b'\n', text).unwrap_or(text.len())
}

fn strip_carriage_return(line: &[u8]) -> &[u8]
    ensures { result.now ≡ strip_carriage_return line.now }
{
    if let Some((last, front)) = line.split_last() {
        if *last == b'\r' {
            return front;
        }
    }
    line
}

// The first line, and the text after it.
fn split_line(text: &[u8]) -> Option<(&[u8], &[u8])>
    ensures { MatchOption result (lines text.now ≡ [])
        (λ split. lines text.now ≡ split.0.now ∷ lines split.1.now) }
{
    let end = line_end(text);
    if end < text.len() {
        let (line, rest) = text.split_at(end);
        Some((strip_carriage_return(line), rest.split_at(1).1))
    } else if text.is_empty() {
        None
    } else {
        Some(text.split_at(text.len()))
    }
}

/// A line of a script.
#[derive(Clone, Copy, Debug)]
pub struct Line<'a> {
    /// Its number, from 1 on; all lines are counted.
    pub number: u64,
    /// Its bytes, without the line feed that ends it and one carriage return before that.
    pub text: &'a [u8],
}

/// The lines of a script that are still to be read, seen as the list of their numbers and bytes.
/// They lie in the script and are not copied.
#[derive(Debug, Drop)]
pub struct Lines<'a> {
    rest: &'a [u8],
    passed: u64,
}

impl<'a> Model for Lines<'a> {
    ghost use Rattle.std.specs.Prelude.{List, ℕ, suc, ◌+◌, ◌≤◌, ◌^◌, ◌<◌, length};
    ghost use Rattle.std.specs.Str.Lines.{lines};
    ghost use Rattle.ssz_line.specs.Lines.{numbered_from};

    ghost Value = { List (ℕ × List ℕ) };

    ghost view = { λ a. numbered_from (suc a.passed) (lines a.rest.now) };

    ghost invariant = { λ a. a.passed + length (lines a.rest.now) < 2 ^ 64 };
}

impl<'a> Lines<'a> {
    ghost use Rattle.ssz_line.specs.Lines.{numbered_lines, past_comments};

    /// The lines of this script.
    pub fn new(script: &'a [u8]) -> Self
        ensures { result ≡ numbered_lines script.now }
    {
        Lines {
            rest: script,
            passed: 0,
        }
    }

    /// The same lines once more.
    pub fn same(&self) -> Lines<'a>
        ensures { result ≡ self.now }
    {
        Lines {
            rest: self.rest,
            passed: self.passed,
        }
    }

    /// Takes the first line, or None where there are no more.
    pub fn next(&mut self) -> Option<Line<'a>>
        ensures { MatchOption result ((self.old ≡ []) × (self.new ≡ []))
            (λ line. self.old ≡ (line.number, line.text.now) ∷ self.new) }
    {
        let (text, rest) = split_line(self.rest)?;
        self.rest = rest;
        self.passed += 1;
        Some(Line {
            number: self.passed,
            text,
        })
    }

    /// Passes over the lines in front that begin with `#`: only their ends are looked for.
    pub fn skip_comments(&mut self)
        ensures passed { self.new ≡ past_comments self.old }
        ensures fewer { length self.new ≤ length self.old }
    {
        'comments: while self.rest.starts_with(b"#") {
            self.next();
        }
    }
}
