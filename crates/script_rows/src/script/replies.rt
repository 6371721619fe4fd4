// The lines of replies.
use anyhow::{Context, Result, bail};
use row_parts::bytes_of;
use ssz_bytes::{ByteRun, Fault};
use ssz_chunk::Chunk;
use ssz_decimal::{number, number_of_8_bits, number_of_64_bits};
use ssz_schema::{Name, Names};
use ssz_script::{Reply, reply_text};
use std::alloc::{AllocError, Global};
use std::fs;
use std::io::{self, Write};

fn push_name(names: &mut Vec<Name>, word: &str) -> Result<(), AllocError> {
    let name = Name::copy_of(*names.allocator(), word.as_bytes())?;
    names.push(name)?;
    Ok(())
}

// The names, parted by spaces.
fn names_of(alloc: Global, words: &str) -> Result<Names, AllocError> {
    let mut names = Vec::new(alloc);
    if !words.is_empty() {
        for word in words.split(' ') {
            push_name(&mut names, word)?;
        }
    }
    Ok(Names::from_vec(names))
}

fn run_of(alloc: Global, digits: &str) -> Result<ByteRun> {
    let bytes = bytes_of(alloc, digits)?;
    Ok(ByteRun::from_bytes(bytes))
}

fn chunk_of(alloc: Global, digits: &str) -> Result<Chunk> {
    let bytes = bytes_of(alloc, digits)?;
    match <[u8; 32]>::try_from(bytes.as_slice()) {
        Ok(bytes) => Ok(Chunk(bytes)),
        Err(_) => bail!("no chunk"),
    }
}

fn count_of(word: &str) -> Result<u64> {
    number_of_64_bits(word.as_bytes()).context("no number of 64 bits")
}

fn index_of(word: &str) -> Result<u128> {
    number(word.as_bytes()).context("no number")
}

fn code_of(word: &str) -> Result<u8> {
    number_of_8_bits(word.as_bytes()).context("no number of 8 bits")
}

// A reply that is a number.
fn number_reply(kind: &str, word: &str) -> Result<Reply> {
    match kind {
        "len" => Ok(Reply::Len(count_of(word)?)),
        "gindex" => Ok(Reply::Gindex(index_of(word)?)),
        _ => Ok(Reply::Hashes(count_of(word)?)),
    }
}

// A reply that is made of bytes.
fn bytes_reply(alloc: Global, kind: &str, digits: &str) -> Result<Reply> {
    match kind {
        "root" => Ok(Reply::Root(chunk_of(alloc, digits)?)),
        "bytes" => Ok(Reply::Bytes(run_of(alloc, digits)?)),
        "proof" => Ok(Reply::Proof(run_of(alloc, digits)?)),
        _ => Ok(Reply::Json(run_of(alloc, digits)?)),
    }
}

fn fault_of(words: &str) -> Result<Fault> {
    let (code, position) = words.split_once(' ').context("no position")?;
    Ok(Fault {
        code: code_of(code)?,
        position: count_of(position)?,
    })
}

// A refusal of a line, by its code, or its code and the fault behind it.
fn refused_reply(line: u64, words: &str) -> Result<Reply> {
    let (code, fault) = match words.split_once(' ') {
        Some((code, fault)) => (code, Some(fault_of(fault)?)),
        None => (words, None),
    };
    Ok(Reply::Refused {
        line,
        code: code_of(code)?,
        fault,
    })
}

// A refusal of any kind.
fn refusal_reply(kind: &str, words: &str) -> Result<Reply> {
    let (line, rest) = words.split_once(' ').context("no line")?;
    let line = count_of(line)?;
    match kind {
        "refused" => refused_reply(line, rest),
        "blind" => Ok(Reply::Blind {
            line,
            index: index_of(rest)?,
        }),
        "badjson" => {
            let place = fault_of(rest)?;
            Ok(Reply::BadJson {
                line,
                code: place.code,
                number: place.position,
            })
        }
        _ => bail!("no reply"),
    }
}

// The reply of a row.
fn reply_of(alloc: Global, row: &str) -> Result<Reply> {
    let (kind, rest) = row.split_once(' ').unwrap_or((row, ""));
    match kind {
        "ok" => Ok(Reply::Done),
        "list" => Ok(Reply::List(names_of(alloc, rest)?)),
        "len" | "gindex" | "hashes" => number_reply(kind, rest),
        "root" | "bytes" | "proof" | "json" => bytes_reply(alloc, kind, rest),
        _ => refusal_reply(kind, rest),
    }
}

fn print_reply(rt: &HostRuntime, reply: &Reply) -> Result<()> {
    let mut out = Vec::new(rt.alloc());
    reply_text(reply, &mut out)?;
    io::writer(rt).write_all(out.as_slice())?;
    Ok(())
}

fn print_row(rt: &HostRuntime, row: &str) -> Result<()> {
    let reply = reply_of(rt.alloc(), row)?;
    let printed = print_reply(rt, &reply);
    drop(reply);
    printed
}

/// Prints the line of the reply of each row of replies.txt: what it is, and its parts. Bytes stand
/// in digits; of a refusal its line and code, and the code and the place of a fault.
pub fn print_replies(rt: &HostRuntime) -> Result<()> {
    let rows = fs::read_to_string(rt, "script_replies.txt")?;
    for row in rows.lines() {
        print_row(rt, row)?;
    }
    Ok(())
}
