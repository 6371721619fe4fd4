// The lines that the program prints, and its statuses.
ghost use Rattle.std.specs.Prelude.{◌≡◌, ◌≢◌, IfOk, Ok, Err, string_bytes};
ghost use Rattle.ssz_clash.specs.declared.finding.Clash.TheVariants.{Unlike};
ghost use Rattle.ssz_clash.specs.declared.fault.ClashFault.TheVariants.{OtherRoot};
ghost use Rattle.ssz_outside.specs.Job.{IsFinished};
ghost use Rattle.ssz_tool.specs.Lines.{bytes_text, comparison_status, comparison_text, definition_text, fault_text, root_text, unlike_text, line_text, line_status};

use ssz_bytes::Fault;
use ssz_chunk::Chunk;
use ssz_clash::{Clash, ClashFault};
use ssz_gindex::Gindex;
use ssz_outside::Status;
use ssz_schema::SchemaFault;
use std::alloc::{AllocError, Global};

/// A line that the program prints.
#[derive(Clone, Copy, Debug, PartialEq, Eq)]
pub enum Line {
    /// The schema file is longer than 2^26 bytes.
    SchemaTooLong,
    /// The schema file is no JSON.
    NotJson,
    /// The JSON is no schema document.
    Shape,
    /// The number of the first definition that has a fault, and its first fault.
    Definition(usize, SchemaFault),
    /// No type has the name.
    NoType,
    /// The value file is longer than `--max-bytes`.
    TooLong,
    /// The bytes encode no value of the type.
    Invalid(Fault),
    /// The root of the value.
    Root(Chunk),
    /// The file is no proof, or longer than 2^26 bytes.
    BadProof,
    /// The proof leads to the root.
    Valid,
    /// The root that the proof leads to, which is another.
    Unlike(Chunk),
    /// The path does not fit the type.
    BadPath,
    /// The part is not there in the value.
    Absent,
    /// The first of two files is no proof, or longer than 2^26 bytes.
    FirstBadProof,
    /// The second is none.
    SecondBadProof,
    /// What two proofs come to.
    Compared(Result<Clash, ClashFault>),
}

/// The text of a line, with its line feed.
pub fn line_text(alloc: Global, line: &Line) -> Result<String, AllocError>
    ensures { IfOk result (λ text. string_bytes text ≡ line_text line.now) }
{
    match line {
        Line::SchemaTooLong => String::from_str(alloc, "schema S15\n"),
        Line::NotJson => String::from_str(alloc, "schema S1\n"),
        Line::Shape => String::from_str(alloc, "schema S2\n"),
        Line::Definition(number, fault) => definition_text(alloc, *number, *fault),
        Line::NoType => String::from_str(alloc, "refused 0 2 NoType\n"),
        Line::TooLong => String::from_str(alloc, "refused 0 12 TooLong\n"),
        Line::Invalid(fault) => fault_text(alloc, *fault),
        Line::Root(chunk) => root_text(alloc, chunk),
        Line::BadProof => String::from_str(alloc, "badproof\n"),
        Line::Valid => String::from_str(alloc, "valid\n"),
        Line::Unlike(chunk) => unlike_text(alloc, chunk),
        Line::BadPath => String::from_str(alloc, "refused 0 5 BadPath\n"),
        Line::Absent => String::from_str(alloc, "refused 0 6 Absent\n"),
        Line::FirstBadProof => String::from_str(alloc, "badproof 1\n"),
        Line::SecondBadProof => String::from_str(alloc, "badproof 2\n"),
        Line::Compared(found) => comparison_text(alloc, found),
    }
}

fn definition_text(alloc: Global, number: usize, fault: SchemaFault) -> Result<String, AllocError>
    ensures { IfOk result (λ text. string_bytes text ≡ definition_text number fault) }
{
    let code = fault.code();
    format!(in alloc; "schema S{code} {number}\n")
}

fn fault_text(alloc: Global, fault: Fault) -> Result<String, AllocError>
    ensures { IfOk result (λ text. string_bytes text ≡ fault_text fault) }
{
    let code = fault.code;
    let position = fault.position;
    format!(in alloc; "invalid F{code} {position}\n")
}

fn root_text(alloc: Global, chunk: &Chunk) -> Result<String, AllocError>
    ensures { IfOk result (λ text. string_bytes text ≡ root_text chunk.now.0) }
{
    let digits = hex::encode(alloc, chunk.0.as_slice())?;
    let digits = digits.as_str();
    format!(in alloc; "root 0x{digits}\n")
}

fn unlike_text(alloc: Global, chunk: &Chunk) -> Result<String, AllocError>
    ensures { IfOk result (λ text. string_bytes text ≡ unlike_text chunk.now.0) }
{
    let digits = hex::encode(alloc, chunk.0.as_slice())?;
    let digits = digits.as_str();
    format!(in alloc; "unlike 0x{digits}\n")
}

/// The line of an encoding, with its line feed.
pub fn bytes_text(alloc: Global, bytes: &[u8]) -> Result<String, AllocError>
    ensures { IfOk result (λ text. string_bytes text ≡ bytes_text bytes.now) }
{
    let digits = hex::encode(alloc, bytes)?;
    let digits = digits.as_str();
    format!(in alloc; "bytes 0x{digits}\n")
}

fn comparison_text(alloc: Global, found: &Result<Clash, ClashFault>) -> Result<String, AllocError>
    ensures { IfOk result (λ text. string_bytes text ≡ comparison_text found.now) }
{
    match found {
        Ok(Clash::Same) => String::from_str(alloc, "same\n"),
        Ok(
            Clash::Unlike {
                index,
                first,
                second,
            },
        ) => clash_text(alloc, *index, first, second),
        Err(ClashFault::OtherIndices) => String::from_str(alloc, "otherindices\n"),
        Err(ClashFault::OtherRoot(a, b)) => other_root_text(alloc, a, b),
    }
}

fn clash_text(
    alloc: Global,
    index: Gindex,
    first: &(Chunk, Chunk),
    second: &(Chunk, Chunk),
) -> Result<String, AllocError>
    ensures { IfOk result (λ text. string_bytes text
        ≡ comparison_text (Ok (Unlike index first.now second.now))) }
{
    let index = index.get();
    let a = hex::encode(alloc, first.0.0.as_slice())?;
    let b = hex::encode(alloc, first.1.0.as_slice())?;
    let c = hex::encode(alloc, second.0.0.as_slice())?;
    let d = hex::encode(alloc, second.1.0.as_slice())?;
    let (a, b, c, d) = (a.as_str(), b.as_str(), c.as_str(), d.as_str());
    format!(in alloc; "clash {index} 0x{a} 0x{b} 0x{c} 0x{d}\n")
}

fn other_root_text(alloc: Global, a: &Chunk, b: &Chunk) -> Result<String, AllocError>
    ensures { IfOk result (λ text. string_bytes text
        ≡ comparison_text (Err (OtherRoot a.now b.now))) }
{
    let a = hex::encode(alloc, a.0.as_slice())?;
    let b = hex::encode(alloc, b.0.as_slice())?;
    let (a, b) = (a.as_str(), b.as_str());
    format!(in alloc; "otherroot 0x{a} 0x{b}\n")
}

/// The status after a line was printed.
pub fn status_of(line: &Line) -> Status
    ensures value { result ≡ line_status line.now }
    ensures finished { IsFinished result }
    ensures usage { result ≢ Status.Usage }
{
    match line {
        Line::SchemaTooLong | Line::NotJson | Line::Shape | Line::Definition(_, _) => {
            Status::SchemaFault
        }
        Line::NoType | Line::TooLong | Line::Invalid(_) | Line::BadPath | Line::Absent => {
            Status::Refused
        }
        Line::BadProof | Line::FirstBadProof | Line::SecondBadProof | Line::Unlike(_) => {
            Status::Refused
        }
        Line::Compared(Err(_)) => Status::Refused,
        Line::Root(_) | Line::Valid | Line::Compared(Ok(_)) => Status::Accepted,
    }
}
