// Runs of few bytes, which take no memory beside themselves.
ghost use Rattle.std.specs.Prelude.{◌≡◌, ◌-◌, ◌<◌, ◌≤◌, [], ◌∷◌, ◌++◌, length, take, set};

use std::alloc::Global;
use std::marker::Model;

// At most 32 bytes, as of a root, seen as a list. With them a run takes 40 bytes and a value 48, no
// more than a chunk and a number of 128 bits make of it.
#[derive(Drop)]
pub(crate) struct Short {
    pub(crate) alloc: Global,
    len: u8,
    bytes: [u8; 32],
}

impl Model for Short {
    ghost use Rattle.std.specs.Prelude.{◌≤◌, ℕ, List, take};

    ghost Value = { List ℕ };

    ghost view = { λ a. take a.len a.bytes };

    ghost invariant = { λ a. a.len ≤ 32 };
}

impl Short {
    // A copy of these bytes.
    #[inline(always)]
    pub(crate) fn copy_of(alloc: Global, source: &[u8]) -> Self
        requires { length source.now ≤ 32 }
        ensures { result ≡ source.now }
    {
        let mut bytes = [0; 32];
        bytes[..source.len()].copy_from_slice(source);
        Short {
            alloc,
            len: source.len() as u8,
            bytes,
        }
    }

    // The bytes in order.
    #[inline(always)]
    pub(crate) fn as_slice(&self) -> &[u8]
        ensures value { result.now ≡ self.now }
        ensures few { length self.now ≤ 32 }
    {
        &self.bytes[..self.len as usize]
    }

    // Puts a byte in the place of number i.
    pub(crate) fn set(&mut self, i: usize, byte: u8)
        requires { i < length self.old }
        ensures { self.new ≡ set self.old i byte }
    {
        self.bytes[i] = byte;
    }

    // Puts a byte behind the others.
    pub(crate) fn push(&mut self, byte: u8)
        requires { length self.old < 32 }
        ensures { self.new ≡ self.old ++ byte ∷ [] }
    {
        self.bytes[self.len as usize] = byte;
        self.len += 1;
    }

    // Takes the last byte away, where there is one.
    pub(crate) fn pop(&mut self)
        ensures { self.new ≡ take (length self.old - 1) self.old }
    {
        if self.len > 0 {
            self.len -= 1;
        }
    }
}
