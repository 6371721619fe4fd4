// Answers of the library as results of this program, and printed lines.
ghost use Rattle.std.specs.Prelude.{◌≡◌, Ok, IfOk};

use anyhow::{Result, bail};
use std::fmt::Debug;
use std::str;

/// What was made, or the fault as an error.
pub fn told<T, F: Debug + Drop>(answer: std::result::Result<T, F>) -> Result<T>
    ensures { IfOk result (λ made. answer ≡ Ok made) }
{
    match answer {
        Ok(made) => Ok(made),
        Err(fault) => bail!("{fault:?}"),
    }
}

/// Prints a word, and bytes as hexadecimal digits.
pub fn say_bytes(rt: &HostRuntime, word: &str, bytes: &[u8]) -> Result<()> {
    let digits = hex::encode(rt.alloc(), bytes)?;
    println!(rt; "{word} 0x{digits}")?;
    Ok(())
}

/// Prints a word, and a text without the line feed at its end.
pub fn say_text(rt: &HostRuntime, word: &str, text: &[u8]) -> Result<()> {
    match str::from_utf8(text) {
        Ok(text) => println!(rt; "{word} {}", text.trim_end())?,
        Err(_) => bail!("no text"),
    }
    Ok(())
}
