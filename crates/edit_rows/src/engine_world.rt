// What a script reads and writes, in memory.
use anyhow::{Result, bail};
use row_parts::{bytes_of, parted};
use ssz_outside::{MemFiles, MemSink};
use std::alloc::Global;

/// The calls of files and sink that fail, from 1 on, 0 for none; and the file that is looked at
/// afterwards.
#[derive(Clone, Copy)]
pub struct Failing<'a> {
    pub files: u64,
    pub sink: u64,
    pub saved: Option<&'a str>,
}

impl<'a> Failing<'a> {
    /// No call fails.
    pub const NONE: Failing<'static> = Failing {
        files: 0,
        sink: 0,
        saved: None,
    };

    /// By the words `FILES SINK` or `FILES SINK NAME`.
    pub fn of_words(words: &'a str) -> Result<Failing<'a>> {
        let (files, rest) = parted(words, ' ')?;
        let (sink, saved) = match rest.split_once(' ') {
            Some((sink, name)) => (sink, Some(name)),
            None => (rest, None),
        };
        Ok(Failing {
            files: files.parse()?,
            sink: sink.parse()?,
            saved,
        })
    }
}

/// The files that a script reads and writes, and the sink that takes its replies.
#[derive(Drop)]
pub struct World {
    pub files: MemFiles,
    pub out: MemSink,
}

impl World {
    /// The files that the text holds.
    pub fn new(alloc: Global, failing: &Failing<'_>, text: &str) -> Result<Self> {
        let out = MemSink::new(alloc, &[failing.sink])?;
        let files = files_of(alloc, failing.files, text)?;
        Ok(World { files, out })
    }
}

/// The files that the text holds, of which this call fails.
pub fn files_of(alloc: Global, fails: u64, text: &str) -> Result<MemFiles> {
    let mut files = MemFiles::new(alloc, &[fails])?;
    for part in text.split("--- ") {
        if !part.is_empty() {
            give(alloc, &mut files, part)?;
        }
    }
    Ok(files)
}

// Gives the file that a part of the text holds.
fn give(alloc: Global, files: &mut MemFiles, part: &str) -> Result<()> {
    let (head, text) = parted(part, '\n')?;
    match head.split_once(' ') {
        Some((name, digits)) => give_bytes(alloc, files, name, digits),
        None => give_text(files, head, text),
    }
}

fn give_bytes(alloc: Global, files: &mut MemFiles, name: &str, digits: &str) -> Result<()> {
    let bytes = bytes_of(alloc, digits)?;
    files.give(name, bytes.as_slice())?;
    Ok(())
}

// The line at whose end the next file's head begins is no part of the text.
fn give_text(files: &mut MemFiles, name: &str, text: &str) -> Result<()> {
    let Some(text) = text.strip_suffix('\n') else {
        bail!("a file ends with its line");
    };
    files.give(name, text.as_bytes())?;
    Ok(())
}
