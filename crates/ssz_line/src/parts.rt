ghost use Rattle.std.specs.Prelude.{◌≡◌, ℕ, ◌<◌, ◌≤◌, ◌∷◌, ◌==◌, [], true, false, Some, None, length, slice_index, MatchOption};
ghost use Rattle.std.specs.List.{slice_split};
ghost use Rattle.ssz_line.specs.Paths.{path_parts};
ghost use Rattle.ssz_line.specs.Parts.{parts_left};

use std::marker::Model;

// Where the first slash lies, or the text's length.
fn slash_place(text: &[u8]) -> usize
    ensures within { result ≤ length text.now }
    ensures before { (k : ℕ) → k < result → (slice_index text.now k == 47) ≡ false }
    ensures at { result < length text.now → (slice_index text.now result == 47) ≡ true }
{
    for (i, byte) in text.iter().enumerate() {
        if *byte == b'/' {
            return i;
        }
    }
    text.len()
}

// The part before the first slash, and what follows the slash.
fn split_part(text: &[u8]) -> (&[u8], Option<&[u8]>)
    ensures { path_parts text.now ≡ result.0.now ∷ parts_left result.1 }
{
    let place = slash_place(text);
    if place < text.len() {
        let (part, rest) = text.split_at(place);
        (part, Some(rest.split_at(1).1))
    } else {
        (text, None)
    }
}

/// The parts of a text between slashes that are still to be read.
#[derive(Drop)]
pub struct Parts<'a> {
    rest: Option<&'a [u8]>,
}

impl<'a> Model for Parts<'a> {
    ghost use Rattle.std.specs.Prelude.{List, ℕ};
    ghost use Rattle.ssz_line.specs.Parts.{parts_left};

    ghost Value = { List (List ℕ) };

    ghost view = { λ a. parts_left a.rest };
}

impl<'a> Parts<'a> {
    pub fn new(text: &'a [u8]) -> Self
        ensures { result ≡ path_parts text.now }
    {
        Parts { rest: Some(text) }
    }

    /// Takes the first part.
    pub fn next(&mut self) -> Option<&'a [u8]>
        ensures { MatchOption result ((self.old ≡ []) × (self.new ≡ []))
            (λ part. self.old ≡ part.now ∷ self.new) }
    {
        let text = self.rest?;
        let (part, rest) = split_part(text);
        self.rest = rest;
        Some(part)
    }
}
