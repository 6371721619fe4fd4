ghost use Rattle.std.specs.Prelude.{◌≡◌, ℕ, ◌<◌, ◌≤◌, ◌∷◌, [], length, slice_index, true, false, MatchOption};
ghost use Rattle.ssz_line.specs.Words.{is_blank, words_of};

use memchr::memchr2;
use std::marker::Model;

fn is_blank(byte: u8) -> bool
    ensures { result ≡ is_blank byte }
{
    byte == b' ' || byte == b'\t'
}

// Where the first word begins, or the line's length.
fn word_start(line: &[u8]) -> usize
    ensures within { result ≤ length line.now }
    ensures before { (k : ℕ) → k < result → is_blank (slice_index line.now k) ≡ true }
    ensures at { result < length line.now → is_blank (slice_index line.now result) ≡ false }
{
    for (i, byte) in line.iter().enumerate() {
        if !is_blank(*byte) {
            return i;
        }
    }
    line.len()
}

// Where the word at the front ends.
fn word_end(line: &[u8]) -> usize
    ensures within { result ≤ length line.now }
    ensures before { (k : ℕ) → k < result → is_blank (slice_index line.now k) ≡ false }
    ensures at { result < length line.now → is_blank (slice_index line.now result) ≡ true }
{
    memchr2(b' ', b'\t', line).unwrap_or(line.len())
}

// The line from its first word on.
fn skip_blanks(line: &[u8]) -> &[u8]
    ensures words { words_of result.now ≡ words_of line.now }
    ensures front { 0 < length result.now → is_blank (slice_index result.now 0) ≡ false }
{
    line.split_at(word_start(line)).1
}

// The word at the front, and the line after it.
fn split_word(line: &[u8]) -> (&[u8], &[u8])
    requires some { 0 < length line.now }
    requires front { is_blank (slice_index line.now 0) ≡ false }
    ensures { words_of line.now ≡ result.0.now ∷ words_of result.1.now }
{
    line.split_at(word_end(line))
}

/// The words of a line that are still to be read.
#[derive(Drop)]
pub struct Words<'a> {
    rest: &'a [u8],
}

impl<'a> Model for Words<'a> {
    ghost use Rattle.std.specs.Prelude.{List, ℕ};
    ghost use Rattle.ssz_line.specs.Words.{words_of};

    ghost Value = { List (List ℕ) };

    ghost view = { λ a. words_of a.rest.now };
}

impl<'a> Words<'a> {
    ghost use Rattle.ssz_line.specs.Words.{words_of};

    pub fn new(line: &'a [u8]) -> Self
        ensures { result ≡ words_of line.now }
    {
        Words { rest: line }
    }

    /// Takes the first word.
    pub fn next(&mut self) -> Option<&'a [u8]>
        ensures { MatchOption result ((self.old ≡ []) × (self.new ≡ []))
            (λ word. self.old ≡ word.now ∷ self.new) }
    {
        let line = skip_blanks(self.rest);
        if line.is_empty() {
            return None;
        }
        let (word, rest) = split_word(line);
        self.rest = rest;
        Some(word)
    }
}
