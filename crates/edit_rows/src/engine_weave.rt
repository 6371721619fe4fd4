// The replies to a script of two writers.
use anyhow::{Result, bail};
use ssz_chunk::PairHash;
use ssz_engine::Engine;
use ssz_machine::Place;
use ssz_outside::MemFiles;
use ssz_script::{Reply, ScriptStatement, Statements, reply_text};
use ssz_versions::Writer;
use std::alloc::Global;

// Appends the reply to a line of a script that is woven: odd lines are of writer 0, even ones of
// writer 1.
fn push_reply<H: PairHash>(
    engine: &mut Engine<H>,
    next: &ScriptStatement,
    files: &mut MemFiles,
    hasher: &mut H,
    out: &mut Vec<u8>,
) -> Result<()> {
    let line = next.line;
    let Some(statement) = &next.statement else {
        let (code, fault) = (Reply::SYNTAX, None);
        reply_text(&Reply::Refused { line, code, fault }, out)?;
        return Ok(());
    };
    if !statement.has_short_literal() {
        bail!("a literal is too long");
    }
    let writer = Writer(if line % 2 == 1 { 0 } else { 1 });
    match engine.step(writer, Place::Weave, line, statement, files, hasher, out) {
        Ok(_) => Ok(()),
        Err(_) => bail!("a statement was not done"),
    }
}

/// Appends the replies to the lines of a script.
pub fn push_replies<H: PairHash>(
    alloc: Global,
    engine: &mut Engine<H>,
    script: &[u8],
    files: &mut MemFiles,
    hasher: &mut H,
    out: &mut Vec<u8>,
) -> Result<()> {
    let mut lines = Statements::new(script);
    while let Some(next) = lines.next(alloc)? {
        let pushed = push_reply(engine, &next, files, hasher, out);
        drop(next);
        pushed?;
    }
    Ok(())
}
