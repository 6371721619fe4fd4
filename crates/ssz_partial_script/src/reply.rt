// What a statement comes to.
ghost use Rattle.std.specs.Prelude.{◌≡◌, ◌<◌, ◌≤◌, ◌+◌, ◌^◌, length, Some, None, IfOk, OnOk, OnErr};
ghost use Rattle.ssz_schema.specs.Unfolding.{type_of};
ghost use Rattle.ssz_script.specs.declared.reply.TheConstants.Reply.{BAD_LITERAL};
ghost use Rattle.ssz_value.specs.Standing.{value_of};
ghost use Rattle.ssz_partial.specs.Partial.{FitsAt, set_to};
ghost use Rattle.ssz_partial_script.specs.Statements.{becomes, get, refusal_of, partial_refusal_reply, partial_set};
ghost use Rattle.ssz_partial_script.specs.Plays.{partial_charge_of, known_after, known_of_row, partial_reply_in, partial_reply_of};
ghost use Rattle.ssz_partial_script.specs.Runs.{partial_turn_at};

use super::line::PartialLine;
use ssz_bytes::{ByteRun, Fault};
use ssz_chunk::PairHash;
use ssz_codec::{DecodeFault, decode};
use ssz_line::Steps;
use ssz_partial::{Partial, PartialFault};
use ssz_schema::{PathStep, Schema};
use ssz_script::{PartialStatement, Reply, is_short};
use ssz_value::Value;
use std::alloc::{AllocError, Global};

// The reply that refuses a line with a code alone.
fn refused(line: u64, code: u8) -> Reply
    ensures { result ≡ Reply.Refused line code None }
{
    Reply::Refused {
        line,
        code,
        fault: None,
    }
}

// The reply that refuses a line for the first fault of its literal.
fn bad_literal(line: u64, fault: Fault) -> Reply
    ensures { result ≡ Reply.Refused line BAD_LITERAL (Some fault) }
{
    Reply::Refused {
        line,
        code: Reply::BAD_LITERAL,
        fault: Some(fault),
    }
}

// The reply to a statement that the tree refuses.
fn refusal(line: u64, fault: PartialFault) -> Reply
    ensures { result ≡ partial_refusal_reply line (refusal_of fault) }
{
    match fault {
        PartialFault::BadPath => refused(line, Reply::BAD_PATH),
        PartialFault::NotThat => refused(line, Reply::NOT_THAT),
        PartialFault::Blind(index) => Reply::Blind {
            line,
            index: index.get(),
        },
        PartialFault::Absent => refused(line, Reply::ABSENT),
    }
}

// The reply to `get P`.
fn get(
    alloc: Global,
    schema: &Schema,
    partial: &Partial,
    line: u64,
    path: &Steps,
) -> Result<Reply, AllocError>
    requires { partial.now.id < length schema.now.trees }
    ensures { IfOk result (λ reply. reply ≡ partial_reply_in line
        (get (type_of schema.now partial.now.id) partial.now.proof path.now)) }
{
    let Some(steps) = path.fitting(alloc, schema, partial.id())? else {
        return Ok(refused(line, Reply::BAD_PATH));
    };
    match partial.get(schema, steps.as_slice()) {
        Ok(piece) => {
            let bytes = &piece.bytes.0[..usize::from(piece.len)];
            Ok(Reply::Bytes(ByteRun::copy_of(alloc, bytes)?))
        }
        Err(fault) => Ok(refusal(line, fault)),
    }
}

// Puts a value of the part's type at the path.
fn put(schema: &Schema, partial: &mut Partial, line: u64, path: &[PathStep], value: &Value) -> Reply
    requires known { partial.old.id < length schema.now.trees }
    requires fits { FitsAt (type_of schema.now partial.old.id) path.now (value_of value.now) }
    ensures reply { result ≡ partial_reply_in line (becomes (set_to partial.old.proof
        (type_of schema.now partial.old.id) path.now (value_of value.now))) }
    ensures known { partial.new ≡ record {
      id = partial.old.id;
      proof = known_of_row partial.old.proof (becomes (set_to partial.old.proof
          (type_of schema.now partial.old.id) path.now (value_of value.now)));
    } }
{
    match partial.set(schema, path, value) {
        Ok(()) => Reply::Done,
        Err(fault) => refusal(line, fault),
    }
}

// The reply to `set P LIT`. Whether a value can be set there is tested before the literal.
fn set(
    alloc: Global,
    schema: &Schema,
    partial: &mut Partial,
    line: u64,
    path: &Steps,
    literal: &[u8],
) -> Result<Reply, AllocError>
    requires known { partial.old.id < length schema.now.trees }
    requires short { length literal.now < 2 ^ 32 }
    ensures reply { IfOk result (λ reply. reply ≡ partial_reply_in line
        (partial_set (type_of schema.now partial.old.id) partial.old.proof path.now literal.now)) }
    ensures known { OnOk result (partial.new ≡ record {
      id = partial.old.id;
      proof = known_of_row partial.old.proof
          (partial_set (type_of schema.now partial.old.id) partial.old.proof path.now literal.now);
    }) }
    ensures same { partial.new.id ≡ partial.old.id }
    ensures intact { OnErr result (partial.new ≡ partial.old) }
{
    let Some(steps) = path.fitting(alloc, schema, partial.id())? else {
        return Ok(refused(line, Reply::BAD_PATH));
    };
    let steps = steps.as_slice();
    let part = match partial.settable(schema, steps) {
        Ok(part) => part,
        Err(fault) => return Ok(refusal(line, fault)),
    };
    match decode(alloc, schema, part, literal) {
        Ok(value) => Ok(put(schema, partial, line, steps, &value)),
        Err(DecodeFault::Bad(fault)) => Ok(bad_literal(line, fault)),
        Err(DecodeFault::Memory) => Err(AllocError),
    }
}

// The reply to a statement of this line.
fn reply_to_statement<H: PairHash>(
    alloc: Global,
    schema: &Schema,
    partial: &mut Partial,
    line: u64,
    statement: &PartialStatement,
    hasher: &mut H,
) -> Result<Reply, AllocError>
    requires { partial.old.id < length schema.now.trees }
    ensures reply { IfOk result (λ reply. reply ≡ partial_reply_of
        (partial_turn_at H.pair_of schema.now partial.old (line, Some statement.now))) }
    ensures known { OnOk result (partial.new ≡ record {
      id = partial.old.id;
      proof = known_after
          (partial_turn_at H.pair_of schema.now partial.old (line, Some statement.now));
    }) }
    ensures same { partial.new.id ≡ partial.old.id }
    ensures intact { OnErr result (partial.new ≡ partial.old) }
    ensures rises { H.pairs hasher.old ≤ H.pairs hasher.new }
    ensures pairs { H.pairs hasher.new ≤ H.pairs hasher.old + partial_charge_of
        (partial_turn_at H.pair_of schema.now partial.old (line, Some statement.now)) }
{
    match statement {
        PartialStatement::Get(path) => get(alloc, schema, partial, line, path),
        PartialStatement::Set(path, literal) => {
            if !is_short(literal.as_slice()) {
                return Err(AllocError);
            }
            set(alloc, schema, partial, line, path, literal.as_slice())
        }
        PartialStatement::Root => Ok(Reply::Root(partial.root(hasher))),
    }
}

/// Does what a line says, and answers the reply. A literal of 2^32 bytes or more is want of memory.
pub fn reply_to<H: PairHash>(
    alloc: Global,
    schema: &Schema,
    partial: &mut Partial,
    line: &PartialLine,
    hasher: &mut H,
) -> Result<Reply, AllocError>
    requires { partial.old.id < length schema.now.trees }
    ensures reply { IfOk result (λ reply. reply ≡ partial_reply_of
        (partial_turn_at H.pair_of schema.now partial.old (line.now.number, line.now.statement))) }
    ensures known { OnOk result (partial.new ≡ record {
      id = partial.old.id;
      proof = known_after
          (partial_turn_at H.pair_of schema.now partial.old (line.now.number, line.now.statement));
    }) }
    ensures same { partial.new.id ≡ partial.old.id }
    ensures intact { OnErr result (partial.new ≡ partial.old) }
    ensures rises { H.pairs hasher.old ≤ H.pairs hasher.new }
    ensures pairs { H.pairs hasher.new ≤ H.pairs hasher.old + partial_charge_of
        (partial_turn_at H.pair_of schema.now partial.old (line.now.number, line.now.statement)) }
{
    match &line.statement {
        Some(statement) => {
            reply_to_statement(alloc, schema, partial, line.number, statement, hasher)
        }
        None => Ok(refused(line.number, Reply::SYNTAX)),
    }
}
