// Whether the proof that a text says leads to a root.
ghost use Rattle.std.specs.Prelude.{◌≡◌};
ghost use Rattle.ssz_said.specs.Verdict.{Judges, verdict_status};

use super::status;
use ssz_chunk::{Chunk, ShaPair};
use ssz_proof::{ProofFault, read_proof, verify};
use std::alloc::Global;

/// What there is to say of a text and a root.
#[derive(Clone, Copy, Debug, PartialEq, Eq)]
pub enum Verdict {
    /// The proof leads to the root.
    Holds,
    /// It leads to another one.
    Unlike,
    /// The text is no proof.
    BadProof,
    /// The text is too long.
    TooLong,
    /// Want of memory.
    Memory,
}

impl Verdict {
    /// The status of a verdict.
    pub fn status(self) -> u32
        ensures { result ≡ verdict_status self }
    {
        match self {
            Verdict::Holds => status::OK,
            Verdict::Unlike => status::UNLIKE,
            Verdict::BadProof => status::BAD_PROOF,
            Verdict::TooLong => status::TOO_LONG,
            Verdict::Memory => status::NO_MEMORY,
        }
    }
}

/// Whether the proof that the text says leads to the root.
pub fn judge(alloc: Global, root: &[u8; 32], text: &[u8]) -> Verdict
    ensures { Judges result root.now text.now }
{
    if text.len() > status::MOST_TEXT {
        return Verdict::TooLong;
    }
    let proof = match read_proof(alloc, text) {
        Ok(proof) => proof,
        Err(ProofFault::BadProof) => return Verdict::BadProof,
        Err(ProofFault::Memory) => return Verdict::Memory,
    };
    let mut hasher = ShaPair::new();
    if verify(&proof, &Chunk(*root), &mut hasher) {
        Verdict::Holds
    } else {
        Verdict::Unlike
    }
}
