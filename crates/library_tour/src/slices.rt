// Parts of encoded bytes, where they stand: nothing is decoded, copied or allocated.
use crate::answers::{say_bytes, told};
use crate::sample::Sample;
use anyhow::{Context, Result};
use ssz_slices::Slice;

// A list's elements are counted, and one of them is a number.
fn show_list(rt: &HostRuntime, list: &Slice<'_, '_>) -> Result<()> {
    let count = list.len().context("no list")?;
    let last = told(list.item(4))?.uint().context("no number")?;
    println!(rt; "b has {count} elements, element 4 is {last}")?;
    Ok(())
}

/// The fields `a` and `b`.
pub fn show(rt: &HostRuntime, sample: &Sample) -> Result<()> {
    let whole = told(Slice::new(&sample.schema, sample.id, sample.bytes.as_slice()))?;
    let a = told(whole.field("a"))?;
    say_bytes(rt, "a is", a.bytes().context("a bit or a length")?)?;
    show_list(rt, &told(whole.field("b"))?)
}
