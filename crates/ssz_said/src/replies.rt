// What a reply says to C.
ghost use Rattle.std.specs.Prelude.{◌≡◌};
ghost use Rattle.ssz_said.specs.Replies.{coded, encoding_of, gindex_of, reply_len, reply_root, reply_taken, reply_text};

use super::entries::{SszIndex, halves};
use super::fault::SszFault;
use super::status;
use ssz_bytes::ByteRun;
use ssz_script::Reply;

// A refusal with the number of its code.
fn coded(code: u8) -> SszFault
    ensures { result ≡ coded code }
{
    SszFault {
        status: status::REFUSED,
        code: u32::from(code),
        position: 0,
    }
}

/// A reply, or the fault of a refusal.
pub fn taken(reply: Reply) -> Result<Reply, SszFault>
    ensures { result ≡ reply_taken reply }
{
    match reply {
        Reply::Refused {
            line: _,
            code,
            fault,
        } => match fault {
            None => Err(coded(code)),
            Some(fault) => Err(SszFault::invalid(fault)),
        },
        Reply::Blind { line: _, index: _ } => Err(coded(Reply::BLIND)),
        Reply::BadJson {
            line: _,
            code: _,
            number: _,
        } => Err(coded(Reply::BAD_JSON)),
        Reply::Done => Ok(Reply::Done),
        Reply::List(names) => Ok(Reply::List(names)),
        Reply::Root(chunk) => Ok(Reply::Root(chunk)),
        Reply::Bytes(bytes) => Ok(Reply::Bytes(bytes)),
        Reply::Len(len) => Ok(Reply::Len(len)),
        Reply::Gindex(index) => Ok(Reply::Gindex(index)),
        Reply::Proof(text) => Ok(Reply::Proof(text)),
        Reply::Hashes(count) => Ok(Reply::Hashes(count)),
        Reply::Json(text) => Ok(Reply::Json(text)),
    }
}

/// The root that is answered.
pub fn root_of(answer: Result<Reply, SszFault>) -> Result<[u8; 32], SszFault>
    ensures { result ≡ reply_root answer }
{
    match answer? {
        Reply::Root(chunk) => Ok(chunk.0),
        _ => Err(SszFault::of(status::REFUSED)),
    }
}

/// The encoding that is answered.
pub fn encoding_of(answer: Result<Reply, SszFault>) -> Result<ByteRun, SszFault>
    ensures { result ≡ encoding_of answer }
{
    match answer? {
        Reply::Bytes(bytes) => Ok(bytes),
        _ => Err(SszFault::of(status::REFUSED)),
    }
}

/// The length that is answered.
pub fn len_of(answer: Result<Reply, SszFault>) -> Result<u64, SszFault>
    ensures { result ≡ reply_len answer }
{
    match answer? {
        Reply::Len(count) => Ok(count),
        _ => Err(SszFault::of(status::REFUSED)),
    }
}

/// The index that is answered.
pub fn gindex_of(answer: Result<Reply, SszFault>) -> Result<SszIndex, SszFault>
    ensures { result ≡ gindex_of answer }
{
    match answer? {
        Reply::Gindex(index) => Ok(halves(index)),
        _ => Err(SszFault::of(status::REFUSED)),
    }
}

/// The JSON text that is answered.
pub fn text_of(answer: Result<Reply, SszFault>) -> Result<ByteRun, SszFault>
    ensures { result ≡ reply_text answer }
{
    match answer? {
        Reply::Json(text) => Ok(text),
        _ => Err(SszFault::of(status::REFUSED)),
    }
}
