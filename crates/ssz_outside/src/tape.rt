// The pieces that a sink in memory has taken, one behind another, with their lengths.
ghost use Rattle.std.specs.Prelude.{◌≡◌, [], ◌∷◌, ◌++◌, OnOk, OnErr};
ghost use Rattle.ssz_outside.specs.Pieces.{text_of_pieces};

use std::alloc::{AllocError, Global};
use std::marker::Model;

#[derive(Drop)]
pub struct Tape {
    text: Vec<u8>,
    lengths: Vec<usize>,
}

impl Model for Tape {
    ghost use Rattle.std.specs.Prelude.{◌≡◌, List, ℕ, length, sum};
    ghost use Rattle.ssz_outside.specs.Memory.{cut};

    ghost Value = { List (List ℕ) };

    ghost view = { λ t. cut t.lengths.items t.text.items };

    ghost invariant = { λ t. sum t.lengths.items ≡ length t.text.items };
}

impl Tape {
    pub fn new(alloc: Global) -> Self
        ensures { result ≡ [] }
    {
        Tape {
            text: Vec::new(alloc),
            lengths: Vec::new(alloc),
        }
    }

    /// Takes one more piece, or leaves all as it was.
    pub fn append(&mut self, piece: &[u8]) -> Result<(), AllocError>
        ensures ok { OnOk result (self.new ≡ self.old ++ piece.now ∷ []) }
        ensures err { OnErr result (self.new ≡ self.old) }
    {
        self.lengths.reserve(1)?;
        self.text.extend_from_slice(piece)?;
        self.lengths.push_reserved(piece.len());
        Ok(())
    }

    /// The pieces, one behind another.
    pub fn text(&self) -> &[u8]
        ensures { result.now ≡ text_of_pieces self.now }
    {
        &self.text
    }
}
