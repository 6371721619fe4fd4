ghost use Rattle.std.specs.Prelude.{◌≡◌, ◌∷◌, ◌++◌, [], ℕ, IfOk, OnOk, OnErr, decimal, codes, string_bytes, IsOk};
ghost use Rattle.std.specs.List.{flat_map};
ghost use Rattle.hex.specs.Hex.{encode_lower};
ghost use Rattle.ssz_script.specs.declared.reply.Reply.TheVariants.{Bytes};
ghost use Rattle.ssz_script.specs.Texts.{line, hexadecimal, refusal_name, refused_line, lettered, fault_words, reply_line};

use super::reply::Reply;
use ssz_bytes::{ByteRun, Fault};
use ssz_digits::{line_of_digits, put_digits};
use ssz_schema::Name;
use std::alloc::{AllocError, Global};

// Appends the text with what stands in front of it and a line feed, or nothing.
fn push_line(out: &mut Vec<u8>, front: &[u8], text: &[u8]) -> Result<(), AllocError>
    ensures ok { OnOk result
        (out.new.items ≡ out.old.items ++ (front.now ++ (text.now ++ 10 ∷ []))) }
    ensures err { OnErr result (out.new.items ≡ out.old.items) }
{
    out.reserve(front.len() + text.len() + 1)?;
    out.extend_from_slice(front)?;
    out.extend_from_slice(text)?;
    out.push(b'\n')?;
    Ok(())
}

// Appends the bytes in hexadecimal with what stands in front of them and a line feed, or nothing.
// Room for all is taken once, and no text is made beside it.
fn push_hexadecimal(out: &mut Vec<u8>, front: &[u8], bytes: &[u8]) -> Result<(), AllocError>
    ensures ok { OnOk result
        (out.new.items ≡ out.old.items ++ (front.now ++ (encode_lower bytes.now ++ 10 ∷ []))) }
    ensures err { OnErr result (out.new.items ≡ out.old.items) }
{
    let digits = 2 * bytes.len();
    let room = digits.checked_add(front.len() + 1).ok_or(AllocError)?;
    out.reserve(room)?;
    out.extend_from_slice(front)?;
    let begin = out.len();
    out.resize(begin + digits, 0)?;
    put_digits(bytes, &mut out.as_mut_slice()[begin..]);
    out.push(b'\n')?;
    Ok(())
}

// Appends the line of an encoding, or nothing. One that is longer than out is wide gives out its
// memory, so that its digits take none beside it.
fn push_encoding(out: &mut Vec<u8>, bytes: ByteRun) -> Result<(), AllocError>
    ensures ok { OnOk result (out.new.items ≡ out.old.items ++ reply_line (Bytes bytes)) }
    ensures err { OnErr result (out.new.items ≡ out.old.items) }
{
    if bytes.len() <= out.capacity() {
        return push_hexadecimal(out, b"bytes 0x", bytes.as_slice());
    }
    *out = line_of_digits(out.as_slice(), b"bytes 0x", bytes.into_bytes()?)?;
    Ok(())
}

// The names, a space before each.
fn names_text(alloc: Global, names: &[Name]) -> Result<Vec<u8>, AllocError>
    ensures { IfOk result (λ text. text.items ≡ flat_map (λ name. 32 ∷ name) names.now) }
{
    let mut text = Vec::new(alloc);
    for name in names {
        text.push(b' ')?;
        text.extend_from_slice(name.as_bytes())?;
    }
    Ok(text)
}

// Appends the line of the names, or nothing.
fn push_names(out: &mut Vec<u8>, names: &[Name]) -> Result<(), AllocError>
    ensures ok { OnOk result (out.new.items ≡ out.old.items ++ line (codes "list" ∷ names.now)) }
    ensures err { OnErr result (out.new.items ≡ out.old.items) }
{
    let text = names_text(*out.allocator(), names)?;
    push_line(out, b"list", text.as_slice())
}

// Appends a text that was made, or nothing.
fn push_text(out: &mut Vec<u8>, text: Result<String, AllocError>) -> Result<(), AllocError>
    ensures ok { OnOk result
        (IfOk text (λ text. out.new.items ≡ out.old.items ++ string_bytes text)) }
    ensures made { OnOk result (IsOk text) }
    ensures err { OnErr result (out.new.items ≡ out.old.items) }
{
    let text = text?;
    out.extend_from_slice(text.as_bytes())
}

// Appends the word, the number and a line feed, or nothing.
fn push_number(out: &mut Vec<u8>, word: &str, number: u128) -> Result<(), AllocError>
    ensures ok { OnOk result
        (out.new.items ≡ out.old.items ++ line (word.now ∷ decimal number ∷ [])) }
    ensures err { OnErr result (out.new.items ≡ out.old.items) }
{
    let text = format!(in *out.allocator(); "{word} {number}\n")?;
    out.extend_from_slice(text.as_bytes())
}

// The name of a code of refusal.
fn refusal_name(code: u8) -> &'static str
    ensures { result.now ≡ refusal_name code }
{
    match code {
        Reply::SYNTAX => "Syntax",
        Reply::NO_TYPE => "NoType",
        Reply::NO_VERSION => "NoVersion",
        Reply::NAME_TAKEN => "NameTaken",
        Reply::BAD_PATH => "BadPath",
        Reply::ABSENT => "Absent",
        Reply::NOT_THAT => "NotThat",
        Reply::FULL => "Full",
        Reply::EMPTY => "Empty",
        Reply::BAD_SELECTOR => "BadSelector",
        Reply::BAD_LITERAL => "BadLiteral",
        Reply::TOO_LONG => "TooLong",
        Reply::NO_NODE => "NoNode",
        Reply::NESTED => "Nested",
        Reply::NOT_HERE => "NotHere",
        Reply::NOT_CONTAINER => "NotContainer",
        Reply::BLIND => "Blind",
        Reply::BAD_JSON => "BadJson",
        _ => "",
    }
}

fn refused_text(alloc: Global, number: u64, code: u8) -> Result<String, AllocError>
    ensures { IfOk result (λ text. string_bytes text ≡ line (refused_line number code)) }
{
    let name = refusal_name(code);
    format!(in alloc; "refused {number} {code} {name}\n")
}

fn fault_text(alloc: Global, number: u64, code: u8, fault: Fault) -> Result<String, AllocError>
    ensures { IfOk result
        (λ text. string_bytes text ≡ line (refused_line number code ++ fault_words (Some fault))) }
{
    let name = refusal_name(code);
    let (letter, position) = (fault.code, fault.position);
    format!(in alloc; "refused {number} {code} {name} F{letter} {position}\n")
}

fn blind_text(alloc: Global, number: u64, index: u128) -> Result<String, AllocError>
    ensures { IfOk result
        (λ text. string_bytes text ≡ line (refused_line number 17 ++ decimal index ∷ [])) }
{
    let code = Reply::BLIND;
    format!(in alloc; "refused {number} {code} Blind {index}\n")
}

fn bad_json_text(alloc: Global, number: u64, code: u8, place: u64) -> Result<String, AllocError>
    ensures { IfOk result
        (λ text. string_bytes text ≡ line
        (refused_line number 18 ++ lettered (codes "J") code ∷ decimal place ∷ [])) }
{
    let refusal = Reply::BAD_JSON;
    format!(in alloc; "refused {number} {refusal} BadJson J{code} {place}\n")
}

// Appends the line of a refusal, or nothing.
fn push_refused(
    out: &mut Vec<u8>,
    number: u64,
    code: u8,
    fault: Option<Fault>,
) -> Result<(), AllocError>
    ensures ok { OnOk result
        (out.new.items ≡ out.old.items ++ line (refused_line number code ++ fault_words fault)) }
    ensures err { OnErr result (out.new.items ≡ out.old.items) }
{
    let alloc = *out.allocator();
    match fault {
        None => push_text(out, refused_text(alloc, number, code)),
        Some(fault) => push_text(out, fault_text(alloc, number, code, fault)),
    }
}

/// Appends the line of a reply, line feed included, or nothing where memory runs out.
pub fn reply_text(reply: &Reply, out: &mut Vec<u8>) -> Result<(), AllocError>
    ensures ok { OnOk result (out.new.items ≡ out.old.items ++ reply_line reply.now) }
    ensures err { OnErr result (out.new.items ≡ out.old.items) }
{
    let alloc = *out.allocator();
    match reply {
        Reply::Done => out.extend_from_slice(b"ok\n"),
        Reply::List(names) => push_names(out, names.as_slice()),
        Reply::Root(chunk) => push_hexadecimal(out, b"root 0x", chunk.0.as_slice()),
        Reply::Bytes(bytes) => push_hexadecimal(out, b"bytes 0x", bytes.as_slice()),
        Reply::Len(number) => push_number(out, "len", u128::from(*number)),
        Reply::Gindex(number) => push_number(out, "gindex", *number),
        Reply::Proof(text) => out.extend_from_slice(text.as_slice()),
        Reply::Hashes(number) => push_number(out, "hashes", u128::from(*number)),
        Reply::Refused { line, code, fault } => push_refused(out, *line, *code, *fault),
        Reply::Blind { line, index } => push_text(out, blind_text(alloc, *line, *index)),
        Reply::Json(text) => push_line(out, b"json ", text.as_slice()),
        Reply::BadJson { line, code, number } => {
            push_text(out, bad_json_text(alloc, *line, *code, *number))
        }
    }
}

/// Appends the line of a reply that is given up, or nothing where memory runs out.
pub fn put_reply(reply: Reply, out: &mut Vec<u8>) -> Result<(), AllocError>
    ensures ok { OnOk result (out.new.items ≡ out.old.items ++ reply_line reply) }
    ensures err { OnErr result (out.new.items ≡ out.old.items) }
{
    match reply {
        Reply::Bytes(bytes) => push_encoding(out, bytes),
        other => reply_text(&other, out),
    }
}
