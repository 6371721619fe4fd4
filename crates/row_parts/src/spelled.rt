// What the words of a row spell.
ghost use Rattle.std.specs.Prelude.{◌<◌, ◌^◌, length, IfOk};

use anyhow::{Context, Result, bail};
use ssz_line::read_path;
use ssz_schema::{PathStep, Schema, TypeId};
use std::alloc::Global;

/// The text before the mark, and that behind it.
pub fn parted(text: &str, mark: char) -> Result<(&str, &str)> {
    text.split_once(mark).context("too few words")
}

/// The words of a row, and the digits of the bytes that it has.
pub fn cut(row: &str) -> (&str, &str) {
    row.split_once(" 0x").unwrap_or((row, ""))
}

/// The type of this name.
pub fn type_named(schema: &Schema, name: &str) -> Result<TypeId>
    ensures { IfOk result (λ id. id < length schema.now.trees) }
{
    match schema.find(name) {
        Some(id) => Ok(id),
        None => bail!("no such type"),
    }
}

/// The steps of a path.
pub fn path_of(alloc: Global, word: &str) -> Result<Vec<PathStep>> {
    match read_path(alloc, word.as_bytes()) {
        Ok(path) => {
            let steps = path.to_vec(alloc);
            drop(path);
            Ok(steps?)
        }
        Err(_) => bail!("no path"),
    }
}

/// The bytes that are written as two digits each.
pub fn bytes_of(alloc: Global, digits: &str) -> Result<Vec<u8>>
    ensures { IfOk result (λ bytes. length bytes.items < 2 ^ 32) }
{
    let Ok(bytes) = hex::decode(alloc, digits) else {
        bail!("no bytes");
    };
    if bytes.len() > u32::MAX as usize {
        bail!("too long");
    }
    Ok(bytes)
}
