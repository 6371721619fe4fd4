// The files of a run, as its lines tell them.
use anyhow::Result;
use ssz_outside::MemFiles;
use std::fs;

const LONG: usize = (1 << 26) + 1;

// The bytes that a word behind a name tells.
fn bytes_of(rt: &HostRuntime, word: &str) -> Result<Vec<u8>> {
    if word == "long" {
        return Ok(vec![in rt.alloc(); 0; LONG]?);
    }
    match word.strip_prefix('@') {
        Some(name) => Ok(fs::read(rt, name)?),
        None => Ok(hex::decode(rt.alloc(), word)?),
    }
}

// Gives the file that a part of a run tells.
fn give(rt: &HostRuntime, files: &mut MemFiles, part: &str) -> Result<()> {
    let (head, text) = part.split_once('\n').unwrap_or((part, ""));
    match head.split_once(' ') {
        Some((_, "?")) => {}
        Some((name, word)) => {
            let bytes = bytes_of(rt, word)?;
            files.give(name, bytes.as_slice())?;
        }
        None => files.give(head, text.as_bytes())?,
    }
    Ok(())
}

/// The files of a run, of which this call fails.
pub fn files_of(rt: &HostRuntime, fails: u64, texts: &str) -> Result<MemFiles> {
    let mut files = MemFiles::new(rt.alloc(), &[fails])?;
    for part in texts.split("\n--- ") {
        if !part.is_empty() {
            give(rt, &mut files, part)?;
        }
    }
    Ok(files)
}

fn print_held(rt: &HostRuntime, files: &MemFiles, name: &str) -> Result<()> {
    match files.held(name) {
        Some(bytes) => println!(rt; "{name} 0x{}", hex::encode(rt.alloc(), bytes)?)?,
        None => println!(rt; "no {name}")?,
    }
    Ok(())
}

/// Prints what the files hold that the run asks for.
pub fn print_saved(rt: &HostRuntime, files: &MemFiles, texts: &str) -> Result<()> {
    for part in texts.split("\n--- ") {
        let (head, _) = part.split_once('\n').unwrap_or((part, ""));
        if let Some((name, "?")) = head.split_once(' ') {
            print_held(rt, files, name)?;
        }
    }
    Ok(())
}
