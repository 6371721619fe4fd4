ghost use Rattle.std.specs.Prelude.{◌≡◌, ℕ, ◌<◌, ◌≤◌, ◌∷◌, Some, is_some};
ghost use Rattle.ssz_line.specs.Paths.{path_step, path, index, path_parts, read_all};
ghost use Rattle.ssz_line.specs.Reading.{Reads};

use super::fault::LineFault;
use super::index::Index;
use super::parts::Parts;
use super::spelled::spelled;
use super::steps::Steps;
use ssz_decimal::number;
use std::alloc::Global;

// Whether each part between slashes spells a step.
fn are_steps(text: &[u8]) -> bool
    ensures { result ≡ is_some (read_all path_step (path_parts text.now)) }
{
    let mut parts = Parts::new(text);
    while let Some(part) = parts.next() {
        if spelled(part).is_none() {
            return false;
        }
    }
    true
}

/// The path that the word spells: `/` alone, or one or more steps, each after a `/`. A step is a
/// name, a decimal number below 2^64, `#len`, `#sel`, or `#` and a decimal number from 0 to 255.
pub fn read_path(alloc: Global, word: &[u8]) -> Result<Steps, LineFault>
    ensures { Reads result (path word.now) }
{
    if word == b"/".as_slice() {
        return Ok(Steps::from_vec(Vec::new(alloc)));
    }
    if !word.starts_with(b"/") {
        return Err(LineFault::Syntax);
    }
    let text = word.split_at(1).1;
    if !are_steps(text) {
        return Err(LineFault::Syntax);
    }
    Ok(Steps::from_text(text.to_vec(alloc)?))
}

/// The index that the word spells: a decimal number below 2^128, or a path.
pub fn read_index(alloc: Global, word: &[u8]) -> Result<Index, LineFault>
    ensures { Reads result (index word.now) }
{
    if word.starts_with(b"/") {
        Ok(Index::Path(read_path(alloc, word)?))
    } else {
        Ok(Index::Number(number(word).ok_or(LineFault::Syntax)?))
    }
}
