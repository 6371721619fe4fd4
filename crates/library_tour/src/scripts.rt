// Scripts on an engine: replies go to a sink, and files come from whatever has names and bytes.
use crate::answers::{say_text, told};
use crate::sample::read_types;
use anyhow::Result;
use ssz_chunk::ShaPair;
use ssz_engine::Engine;
use ssz_line::read_name;
use ssz_outside::{QuietFiles, QuietSink, Status};
use ssz_schema::Schema;
use ssz_script::Statements;
use std::alloc::{AllocError, Global};

const SCRIPT: &str = "new V T\nappend V /b 0x0900000000000000\nroot V\nfrob\n";

// How many lines of a script say something, and the first of them that is no statement.
fn read(alloc: Global, script: &[u8]) -> Result<(u64, Option<u64>), AllocError> {
    let mut statements = Statements::new(script);
    let (mut count, mut wrong) = (0u64, None);
    while let Some(next) = statements.next(alloc)? {
        count = count.wrapping_add(1);
        if next.statement.is_none() && wrong.is_none() {
            wrong = Some(next.line);
        }
        drop(next);
    }
    Ok((count, wrong))
}

// A script as writer 0, line after line, on an engine of its own.
fn run(alloc: Global, schema: Schema, script: &[u8], out: &mut QuietSink) -> Result<Status> {
    let mut files = QuietFiles::new(alloc)?;
    let mut hasher = ShaPair::new();
    let mut engine = Engine::start(alloc, schema, u32::MAX, &mut hasher)?;
    Ok(engine.run_script(script, &mut files, out, &mut hasher))
}

// Edits of a new version `w` of a type, drawn from the number 7, with a root after each.
fn work(alloc: Global, schema: Schema, name: &[u8], out: &mut QuietSink) -> Result<Status> {
    let mut files = QuietFiles::new(alloc)?;
    let mut hasher = ShaPair::new();
    let name = told(read_name(alloc, name))?;
    let mut engine = Engine::start(alloc, schema, u32::MAX, &mut hasher)?;
    Ok(engine.work(&name, 7, 100, &mut files, out, &mut hasher))
}

fn show_run(rt: &HostRuntime, path: &str) -> Result<()> {
    let schema = read_types(rt, path)?;
    let mut out = QuietSink::new(rt.alloc())?;
    let status = run(rt.alloc(), schema, SCRIPT.as_bytes(), &mut out)?;
    say_text(rt, "replies:", out.taken())?;
    println!(rt; "status {}", status as u8)?;
    Ok(())
}

fn show_work(rt: &HostRuntime, path: &str) -> Result<()> {
    let schema = read_types(rt, path)?;
    let mut out = QuietSink::new(rt.alloc())?;
    let status = work(rt.alloc(), schema, b"T", &mut out)?;
    say_text(rt, "drawn:", out.taken())?;
    println!(rt; "status {}", status as u8)?;
    Ok(())
}

/// What a script says, its replies, and those to edits that are drawn.
pub fn show(rt: &HostRuntime, path: &str) -> Result<()> {
    let (count, wrong) = read(rt.alloc(), SCRIPT.as_bytes())?;
    println!(rt; "{count} lines, the first that is no statement: {wrong:?}")?;
    show_run(rt, path)?;
    show_work(rt, path)
}
