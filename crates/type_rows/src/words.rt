//! What command lines ask for.
//!
//! A row is a command line, each word parted from the next by one space; an empty row has no words
//! at all, not even the program's name. Its line is the command with its words in their order,
//! `--max-bytes` last and as a number, or `not taken`. The wanted lines were read off `clap` 4.0.32
//! of crates.io, with this command set; those of `part`, `partial` and `clash` were written by
//! hand, each by a line of another command with words of the same kind.
use anyhow::{Result, bail};
use ssz_words::{
    ClashArgs, Command, PartArgs, PartialArgs, RootArgs, RunArgs, VerifyArgs, WeaveArgs,
    WordsFault, WorkArgs, read_words,
};
use std::alloc::{AllocError, Global};
use std::fs;

fn print_root(rt: &HostRuntime, args: &RootArgs) -> Result<()> {
    let (schema, type_name) = (args.schema.as_str(), args.type_name.as_str());
    let file = args.file.as_str();
    println!(rt; "root {schema} {type_name} {file} {}", args.max_bytes)?;
    Ok(())
}

fn print_run(rt: &HostRuntime, args: &RunArgs) -> Result<()> {
    let (schema, script) = (args.schema.as_str(), args.script.as_str());
    println!(rt; "run {schema} {script} {}", args.max_bytes)?;
    Ok(())
}

fn print_weave(rt: &HostRuntime, args: &WeaveArgs) -> Result<()> {
    print!(rt; "weave {} {} ", args.schema.as_str(), args.base.as_str())?;
    for writer in args.order.writers() {
        print!(rt; "{writer}")?;
    }
    print_scripts(rt, args)?;
    println!(rt; " {}", args.max_bytes)?;
    Ok(())
}

// Prints the scripts' names, parted by commas.
fn print_scripts(rt: &HostRuntime, args: &WeaveArgs) -> Result<()> {
    let mut mark = ' ';
    for name in args.scripts.as_slice() {
        print!(rt; "{mark}{}", name.as_str())?;
        mark = ',';
    }
    Ok(())
}

fn print_verify(rt: &HostRuntime, args: &VerifyArgs) -> Result<()> {
    let root = hex::encode(rt.alloc(), args.root.as_slice())?;
    println!(rt; "verify {root} {}", args.file.as_str())?;
    Ok(())
}

fn print_work(rt: &HostRuntime, args: &WorkArgs) -> Result<()> {
    let (schema, type_name) = (args.schema.as_str(), args.type_name.as_str());
    println!(rt; "work {schema} {type_name} {} {}", args.seed, args.edits)?;
    Ok(())
}

fn print_part(rt: &HostRuntime, args: &PartArgs) -> Result<()> {
    let (schema, type_name) = (args.schema.as_str(), args.type_name.as_str());
    let (file, path) = (args.file.as_str(), args.path.as_str());
    println!(rt;
        "part {schema} {type_name} {file} {path} {}",
        args.max_bytes
    )?;
    Ok(())
}

fn print_partial(rt: &HostRuntime, args: &PartialArgs) -> Result<()> {
    let (schema, type_name) = (args.schema.as_str(), args.type_name.as_str());
    let (proof, script) = (args.proof.as_str(), args.script.as_str());
    println!(rt; "partial {schema} {type_name} {proof} {script}")?;
    Ok(())
}

fn print_clash(rt: &HostRuntime, args: &ClashArgs) -> Result<()> {
    let (first, second) = (args.first.as_str(), args.second.as_str());
    println!(rt; "clash {first} {second}")?;
    Ok(())
}

fn print_command(rt: &HostRuntime, command: &Command) -> Result<()> {
    match command {
        Command::Root(args) => print_root(rt, args),
        Command::Run(args) => print_run(rt, args),
        Command::Weave(args) => print_weave(rt, args),
        Command::Verify(args) => print_verify(rt, args),
        Command::Work(args) => print_work(rt, args),
        Command::Part(args) => print_part(rt, args),
        Command::Partial(args) => print_partial(rt, args),
        Command::Clash(args) => print_clash(rt, args),
    }
}

fn push_word(words: &mut Vec<String>, word: &str) -> Result<(), AllocError> {
    let word = String::from_str(*words.allocator(), word)?;
    words.push(word)?;
    Ok(())
}

// The words of a command line.
fn words_of(alloc: Global, row: &str) -> Result<Vec<String>, AllocError> {
    let mut words = Vec::new(alloc);
    if row.is_empty() {
        return Ok(words);
    }
    for word in row.split(' ') {
        push_word(&mut words, word)?;
    }
    Ok(words)
}

fn print_fault(rt: &HostRuntime, fault: WordsFault) -> Result<()> {
    match fault {
        WordsFault::NotTaken => println!(rt; "not taken")?,
        WordsFault::Memory => bail!("want of memory"),
    }
    Ok(())
}

fn print_row(rt: &HostRuntime, row: &str) -> Result<()> {
    let words = words_of(rt.alloc(), row)?;
    let read = read_words(rt.alloc(), words.as_slice());
    drop(words);
    match read {
        Ok(command) => {
            let printed = print_command(rt, &command);
            drop(command);
            printed
        }
        Err(fault) => print_fault(rt, fault),
    }
}

/// Prints what comes of each row of words.txt.
pub fn print_rows(rt: &HostRuntime) -> Result<()> {
    let rows = fs::read_to_string(rt, "words.txt")?;
    for row in rows.lines() {
        print_row(rt, row)?;
    }
    Ok(())
}
