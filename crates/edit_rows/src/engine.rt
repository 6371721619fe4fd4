//! What an engine replies to scripts, over files and a sink in memory.
//!
//! Each run of engine.txt has a head and a script. `=== run NAME` is a script of one writer, done
//! over SHA-256 and over the xor of chunks; its lines are the replies, how it ended, and the files
//! that it saved. `=== weave NAME` is one of two writers, who say a line in turn, and has the
//! replies alone. `=== fail FILES SINK` names the call of the files and that of the sink that fail,
//! from 1 on, 0 for none; its lines are how the script ended and what the sink took, and behind
//! `=== fail FILES SINK NAME` what is then in that file.
//!
//! The files that scripts read are those of engine_files.txt, each behind a line `--- NAME`, or as
//! one line `--- NAME DIGITS`.
use super::engine_weave::push_replies;
use super::engine_world::{Failing, World, files_of};
use anyhow::{Result, bail};
use row_parts::{Digits, parted, read_rows, read_schema_file};
use ssz_chunk::{PairHash, ShaPair, XorPair};
use ssz_engine::Engine;
use ssz_outside::{MemFiles, Status};
use std::str;

// The most bytes of an encoding or of a JSON text that is read or shown.
const MAX_BYTES: u32 = 64;

// An engine of its own for a run.
fn engine_of<H: PairHash>(rt: &HostRuntime, hasher: &mut H) -> Result<Engine<H>> {
    let schema = read_schema_file(rt, "engine_schema.json")?;
    Ok(Engine::start(rt.alloc(), schema, MAX_BYTES, hasher)?)
}

fn print_text(rt: &HostRuntime, bytes: &[u8]) -> Result<()> {
    match str::from_utf8(bytes) {
        Ok(text) => print!(rt; "{text}")?,
        Err(_) => bail!("no text"),
    }
    Ok(())
}

// Prints a file that a script saved.
fn print_bytes(rt: &HostRuntime, name: &str, bytes: &[u8]) -> Result<()> {
    println!(rt; "{name} 0x{}", Digits(bytes))?;
    Ok(())
}

// Does a script, over an engine of its own.
fn done<H: PairHash>(
    rt: &HostRuntime,
    script: &str,
    world: &mut World,
    hasher: &mut H,
) -> Result<Status> {
    let mut engine = engine_of(rt, hasher)?;
    Ok(engine.run_script(script.as_bytes(), &mut world.files, &mut world.out, hasher))
}

// Prints the replies to a script, how it ended, and what it saved.
fn print_run<H: PairHash>(
    rt: &HostRuntime,
    script: &str,
    files: &str,
    hasher: &mut H,
) -> Result<()> {
    let mut world = World::new(rt.alloc(), &Failing::NONE, files)?;
    let status = done(rt, script, &mut world, hasher)?;
    print_replies(rt, status, &world)
}

fn print_replies(rt: &HostRuntime, status: Status, world: &World) -> Result<()> {
    print_text(rt, world.out.taken())?;
    println!(rt; "status {}", status as u8)?;
    print_held(rt, &world.files, "f")?;
    print_held(rt, &world.files, "g")
}

// Nothing for a file that is absent.
fn print_held(rt: &HostRuntime, files: &MemFiles, name: &str) -> Result<()> {
    match files.held(name) {
        Some(bytes) => print_bytes(rt, name, bytes),
        None => Ok(()),
    }
}

// Prints how a script ended of which a call failed, and what the sink took.
fn print_failing(rt: &HostRuntime, words: &str, script: &str, files: &str) -> Result<()> {
    let failing = Failing::of_words(words)?;
    let mut world = World::new(rt.alloc(), &failing, files)?;
    let status = done(rt, script, &mut world, &mut XorPair::new())?;
    print_ending(rt, status, &world, failing.saved)
}

fn print_ending(
    rt: &HostRuntime,
    status: Status,
    world: &World,
    saved: Option<&str>,
) -> Result<()> {
    println!(rt; "status {}", status as u8)?;
    print_text(rt, world.out.taken())?;
    println!(rt; "|")?;
    match saved {
        Some(name) => print_saved(rt, &world.files, name),
        None => Ok(()),
    }
}

fn print_saved(rt: &HostRuntime, files: &MemFiles, name: &str) -> Result<()> {
    match files.held(name) {
        Some(bytes) => print_bytes(rt, name, bytes),
        None => {
            println!(rt; "no {name}")?;
            Ok(())
        }
    }
}

// Appends the replies to a script of two writers.
fn weave<H: PairHash>(
    rt: &HostRuntime,
    script: &str,
    files: &mut MemFiles,
    hasher: &mut H,
    out: &mut Vec<u8>,
) -> Result<()> {
    let mut engine = engine_of(rt, hasher)?;
    let script = script.as_bytes();
    push_replies(rt.alloc(), &mut engine, script, files, hasher, out)
}

// Prints the replies to a script of two writers.
fn print_weave<H: PairHash>(
    rt: &HostRuntime,
    script: &str,
    files: &str,
    hasher: &mut H,
) -> Result<()> {
    let mut files = files_of(rt.alloc(), 0, files)?;
    let mut out = Vec::new(rt.alloc());
    weave(rt, script, &mut files, hasher, &mut out)?;
    print_text(rt, out.as_slice())
}

// A script over either hasher.
fn print_runs(rt: &HostRuntime, name: &str, script: &str, files: &str) -> Result<()> {
    println!(rt; "{name} sha")?;
    print_run(rt, script, files, &mut ShaPair::new())?;
    println!(rt; "{name} xor")?;
    print_run(rt, script, files, &mut XorPair::new())
}

// A script of two writers over either hasher.
fn print_weaves(rt: &HostRuntime, name: &str, script: &str, files: &str) -> Result<()> {
    println!(rt; "{name} sha")?;
    print_weave(rt, script, files, &mut ShaPair::new())?;
    println!(rt; "{name} xor")?;
    print_weave(rt, script, files, &mut XorPair::new())
}

fn print_part(rt: &HostRuntime, part: &str, files: &str) -> Result<()> {
    let (head, script) = parted(part, '\n')?;
    let (word, words) = parted(head, ' ')?;
    match word {
        "run" => print_runs(rt, words, script, files),
        "weave" => print_weaves(rt, words, script, files),
        "fail" => print_failing(rt, words, script, files),
        _ => bail!("no such run"),
    }
}

// Prints the lines of each run.
fn print_parts(rt: &HostRuntime, runs: &str, files: &str) -> Result<()> {
    for part in runs.split("=== ") {
        if !part.is_empty() {
            print_part(rt, part, files)?;
        }
    }
    Ok(())
}

fn print_over(rt: &HostRuntime, runs: &str) -> Result<()> {
    let files = read_rows(rt, "engine_files.txt")?;
    print_parts(rt, runs, files.as_str())
}

/// Prints the replies to the runs of engine.txt.
pub fn print_subject(rt: &HostRuntime) -> Result<()> {
    let runs = read_rows(rt, "engine.txt")?;
    print_over(rt, runs.as_str())
}
