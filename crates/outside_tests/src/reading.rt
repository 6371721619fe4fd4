// What files answer to one `get`.
use ssz_outside::{Files, GetFault, Got};
use std::alloc::Global;

// The answer for at most so many bytes of a name.
pub fn got<F: Files>(alloc: Global, files: &mut F, name: &str, max: u64) -> Result<Got, GetFault>
    requires { F.usable files.old }
{
    files.get(name, &mut Vec::new(alloc), max)
}

// Whether a name gives these bytes, all of them, where at most so many are asked for.
pub fn reads<F: Files>(alloc: Global, files: &mut F, name: &str, max: u64, bytes: &[u8]) -> bool
    requires { F.usable files.old }
{
    let mut read = Vec::new(alloc);
    files.get(name, &mut read, max) == Ok(Got::Whole) && read.as_slice() == bytes
}
