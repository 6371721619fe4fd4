// Finds a field of elements all over a list in encoded bytes, so many times:
// SCHEMA TYPE FILE FIELD TIMES.
ghost use Rattle.std.specs.Prelude.{◌<◌};

use super::inputs::{Sample, number, read_sample};
use super::paths::{aim, element_field, nth_element};
use anyhow::{Context, Result, bail};
use ssz_schema::PathStep;
use ssz_slices::Slice;
use std::alloc::Global;

const USAGE: &str = "usage: bench slices SCHEMA TYPE FILE FIELD TIMES";

// Where the part at the path begins.
fn start_at(whole: &Slice<'_, '_>, path: &[PathStep]) -> Result<usize> {
    match whole.at(path) {
        Ok(part) => part.start().context("no bytes"),
        Err(_) => bail!("no such field"),
    }
}

// Where the part of an element begins to which the path leads, of elements all over the list. All
// the starts are summed, so that each is asked for.
fn starts(whole: &Slice<'_, '_>, path: &mut Vec<PathStep>, len: u64, times: u32) -> Result<u64>
    requires { 0 < len }
{
    let mut sum = 0u64;
    for i in 0..times {
        aim(path, 0, nth_element(i, len));
        let start = start_at(whole, path.as_slice())?;
        sum = sum.wrapping_add(start as u64);
    }
    Ok(sum)
}

// The same of this field of the elements.
fn find(alloc: Global, whole: &Slice<'_, '_>, field: &str, times: u32) -> Result<u64> {
    let len = whole.len().context("no list")?;
    if len == 0 {
        bail!("no elements");
    }
    let mut path = element_field(alloc, field)?;
    starts(whole, &mut path, len, times)
}

// The same in the bytes of a file.
fn work(alloc: Global, sample: &Sample, field: &str, times: u32) -> Result<u64> {
    match Slice::new(&sample.schema, sample.id, sample.bytes.as_slice()) {
        Ok(whole) => find(alloc, &whole, field, times),
        Err(_) => bail!("no value"),
    }
}

/// Does the work of the words, and says the sum of the starts.
pub fn run(rt: &HostRuntime, words: &[String]) -> Result<()> {
    let [schema, name, file, field, times] = words else {
        bail!(USAGE);
    };
    let times = number(times)?;
    let sample = read_sample(rt, schema, name, file)?;
    let sum = work(rt.alloc(), &sample, field, times);
    drop(sample);
    println!(rt; "{}", sum?)?;
    Ok(())
}
