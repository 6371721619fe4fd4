ghost use Rattle.std.specs.Prelude.{◌≡◌, ◌∷◌, [], ◌==◌, position, MatchOption};
ghost use Rattle.ssz_proof.specs.Text.{IsSplitOnce};

use std::marker::Model;

// Where a byte first stands.
fn place_of(text: &[u8], wanted: u8) -> Option<usize>
    ensures { result ≡ position (λ byte. byte == wanted) text.now }
{
    text.iter().position(|byte| *byte == wanted)
}

/// What stands before a byte's first place, and what stands behind it.
pub(crate) fn split_once(text: &[u8], wanted: u8) -> Option<(&[u8], &[u8])>
    ensures { MatchOption result (position (λ byte. byte == wanted) text.now ≡ None)
        (λ parts. IsSplitOnce wanted text.now parts.0.now parts.1.now) }
{
    match place_of(text, wanted) {
        Some(place) => {
            let (front, rest) = text.split_at(place);
            Some((front, rest.split_at(1).1))
        }
        None => None,
    }
}

/// The words that are still to be read: what stands between single spaces.
#[derive(Drop)]
pub(crate) struct Words<'a> {
    rest: Option<&'a [u8]>,
}

impl<'a> Model for Words<'a> {
    ghost use Rattle.std.specs.Prelude.{List, ℕ};
    ghost use Rattle.std.specs.Option.{option_map};
    ghost use Rattle.std.specs.Prelude.{unwrap_or, []};
    ghost use Rattle.ssz_proof.specs.Text.{words_of_line};

    ghost Value = { List (List ℕ) };

    ghost view = { λ a. unwrap_or (option_map (λ line. words_of_line line.now) a.rest) [] };
}

impl<'a> Words<'a> {
    ghost use Rattle.ssz_proof.specs.Text.{words_of_line};

    /// All words of a line.
    pub(crate) fn new(line: &'a [u8]) -> Self
        ensures { result ≡ words_of_line line.now }
    {
        Words { rest: Some(line) }
    }

    /// Takes the first word.
    pub(crate) fn next(&mut self) -> Option<&'a [u8]>
        ensures { MatchOption result (self.old ≡ [])
            (λ word. self.old ≡ word.now ∷ self.new) }
    {
        let line = self.rest?;
        match split_once(line, b' ') {
            Some((word, rest)) => {
                self.rest = Some(rest);
                Some(word)
            }
            None => {
                self.rest = None;
                Some(line)
            }
        }
    }
}
