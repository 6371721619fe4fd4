//! What lines are read as, the statements of a script with the numbers of their lines, what lines
//! of scripts for partial trees are read as, and the lines of replies.
//!
//! The wanted lines follow by hand from the table of statements and of replies of docs/formats.md.
mod replies;
mod spelled;
mod statements;

use anyhow::Result;
use replies::print_replies;
use spelled::push_number;
use ssz_script::{LineFault, Lines, ScriptStatement, Statements, read_line, read_partial};
use statements::{push_partial, push_statement};
use std::alloc::{AllocError, Global};
use std::fs;
use std::io::{self, Write};

fn push_line_number(out: &mut Vec<u8>, number: u64) -> Result<(), AllocError> {
    push_number(out, u128::from(number))?;
    out.push(b' ')?;
    Ok(())
}

// The grammars of lines.
#[derive(Clone, Copy)]
enum Grammar {
    Script,
    PartialTree,
}

// How a file is read.
#[derive(Clone, Copy)]
enum Form {
    // Each line by itself.
    Lines(Grammar),
    Script,
}

fn push_fault(out: &mut Vec<u8>, fault: LineFault) -> Result<(), AllocError> {
    match fault {
        LineFault::Syntax => out.extend_from_slice(b"Syntax"),
        LineFault::Memory => Err(AllocError),
    }
}

// Appends what a line is read as.
fn push_read(out: &mut Vec<u8>, line: &[u8]) -> Result<(), AllocError> {
    match read_line(*out.allocator(), line) {
        Ok(None) => out.extend_from_slice(b"nothing"),
        Ok(Some(statement)) => {
            let pushed = push_statement(out, &statement);
            drop(statement);
            pushed
        }
        Err(fault) => push_fault(out, fault),
    }
}

// Appends what a line for a partial tree is read as.
fn push_read_partial(out: &mut Vec<u8>, line: &[u8]) -> Result<(), AllocError> {
    match read_partial(*out.allocator(), line) {
        Ok(None) => out.extend_from_slice(b"nothing"),
        Ok(Some(statement)) => {
            let pushed = push_partial(out, &statement);
            drop(statement);
            pushed
        }
        Err(fault) => push_fault(out, fault),
    }
}

// Appends a line for each line of the text.
fn push_lines(out: &mut Vec<u8>, text: &[u8], grammar: Grammar) -> Result<(), AllocError> {
    let mut lines = Lines::new(text);
    while let Some(line) = lines.next() {
        push_line_number(out, line.number)?;
        match grammar {
            Grammar::Script => push_read(out, line.text)?,
            Grammar::PartialTree => push_read_partial(out, line.text)?,
        }
        out.push(b'\n')?;
    }
    Ok(())
}

// Appends what a line of a script says.
fn push_said(out: &mut Vec<u8>, next: &ScriptStatement) -> Result<(), AllocError> {
    push_line_number(out, next.line)?;
    match &next.statement {
        None => out.extend_from_slice(b"Syntax\n"),
        Some(statement) => {
            push_statement(out, statement)?;
            out.extend_from_slice(b"\n")
        }
    }
}

// Appends a line for each statement of a script.
fn push_script(out: &mut Vec<u8>, script: &[u8]) -> Result<(), AllocError> {
    let mut statements = Statements::new(script);
    while let Some(next) = statements.next(*out.allocator())? {
        let pushed = push_said(out, &next);
        drop(next);
        pushed?;
    }
    Ok(())
}

// What is printed of a file.
fn text_of(alloc: Global, text: &[u8], form: Form) -> std::result::Result<Vec<u8>, AllocError> {
    let mut out = Vec::new(alloc);
    match form {
        Form::Lines(grammar) => push_lines(&mut out, text, grammar)?,
        Form::Script => push_script(&mut out, text)?,
    }
    Ok(out)
}

fn print_file(rt: &HostRuntime, file: &str, form: Form) -> Result<()> {
    let text = fs::read(rt, file)?;
    let out = text_of(rt.alloc(), text.as_slice(), form)?;
    io::writer(rt).write_all(out.as_slice())?;
    Ok(())
}

/// Prints what comes of each line of the files script*.txt.
pub fn print_rows(rt: &HostRuntime) -> Result<()> {
    print_file(rt, "script.txt", Form::Lines(Grammar::Script))?;
    print_file(rt, "script_whole.txt", Form::Script)?;
    print_file(rt, "script_partial.txt", Form::Lines(Grammar::PartialTree))?;
    print_replies(rt)
}
