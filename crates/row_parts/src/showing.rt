// How bytes are shown.
use ssz_chunk::Chunk;
use std::alloc::{AllocError, Global};
use std::fmt;

/// `0x` and the digits of the bytes.
pub fn digits_of(alloc: Global, bytes: &[u8]) -> Result<String, AllocError> {
    let digits = hex::encode(alloc, bytes)?;
    format!(in alloc; "0x{digits}")
}

/// The bytes, two digits for each.
#[derive(Clone, Copy)]
pub struct Digits<'a>(pub &'a [u8]);

impl fmt::Display for Digits<'_> {
    fn fmt<W: fmt::Write>(&self, f: &mut fmt::Formatter<W>) -> fmt::Result {
        for byte in self.0 {
            write!(f, "{byte:02x}")?;
        }
        Ok(())
    }
}

/// A chunk that may be there.
#[derive(Clone, Copy)]
pub struct Shown<'a>(pub Option<&'a Chunk>);

impl fmt::Display for Shown<'_> {
    fn fmt<W: fmt::Write>(&self, f: &mut fmt::Formatter<W>) -> fmt::Result {
        match self.0 {
            Some(chunk) => write!(f, "0x{}", Digits(chunk.0.as_slice())),
            None => write!(f, "None"),
        }
    }
}
