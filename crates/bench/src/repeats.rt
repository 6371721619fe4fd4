// Works that are done so many times with the value of a file: codec, json or reading, and
// WHAT SCHEMA TYPE FILE TIMES.
use anyhow::{Result, bail};
use bench_nodes::reading;
use bench_values::inputs::{Sample, number, read_sample};
use bench_values::{codec, json};
use std::alloc::Global;

const USAGE: &str = "usage: bench codec|json|reading WHAT SCHEMA TYPE FILE TIMES";

fn work(alloc: Global, name: &str, what: &str, sample: &Sample, times: u32) -> Result<()> {
    match name {
        "codec" => codec::work(alloc, what, sample, times),
        "json" => json::work(alloc, what, sample, times),
        "reading" => reading::work(alloc, what, sample, times),
        _ => bail!(USAGE),
    }
}

/// Does the work of this name, and says what was done.
pub fn run(rt: &HostRuntime, name: &str, words: &[String]) -> Result<()> {
    let [what, schema, type_name, file, times] = words else {
        bail!(USAGE);
    };
    let times = number(times)?;
    let sample = read_sample(rt, schema, type_name, file)?;
    let done = work(rt.alloc(), name, what, &sample, times);
    drop(sample);
    done?;
    println!(rt; "{what} {times}")?;
    Ok(())
}
