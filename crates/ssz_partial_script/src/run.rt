// Scripts, line after line.
ghost use Rattle.std.specs.Prelude.{◌≡◌, ◌≢◌, ◌<◌, ◌≤◌, ◌+◌, ◌++◌, ℕ, [], false, length, Err, IfErr, OnOk, OnErr, vec_len, vec_capacity};
ghost use Rattle.ssz_outside.specs.Content.{Content};
ghost use Rattle.ssz_outside.specs.Job.{CountsRun, IsFinished};
ghost use Rattle.ssz_outside.specs.Printed.{CountsPrint, IsStop, PrintsLine};
ghost use Rattle.ssz_schema.specs.Unfolding.{type_of};
ghost use Rattle.ssz_script.specs.Grammar.{partial_statements};
ghost use Rattle.ssz_script.specs.Lines.{lines_said};
ghost use Rattle.ssz_script.specs.Texts.{reply_line};
ghost use Rattle.ssz_partial_script.specs.Plays.{partial_charge_of, partial_charges, known_last, partial_play, partial_turns_of_script};
ghost use Rattle.ssz_partial_script.specs.Runs.{CountsPartialFaults, EndsPartial, RunsAll, RunsTurn, is_partial_refusal, partial_turn_at};

use super::line::{PartialLine, next_line};
use super::reply::reply_to;
use ssz_chunk::PairHash;
use ssz_outside::{Replies, Sink, Status, print_line};
use ssz_partial::Partial;
use ssz_schema::Schema;
use ssz_script::{Lines, Reply, reply_text};
use std::alloc::{AllocError, Global};

// Appends `ok`, for which there is room.
fn say_done(text: &mut Vec<u8>)
    requires { vec_len text.old + 3 ≤ vec_capacity text.old }
    ensures { text.new.items ≡ text.old.items ++ reply_line Reply.Done }
{
    match text.extend_from_slice(b"ok\n") {
        Ok(()) => {}
        Err(_) => unreachable!(),
    }
}

// Makes the line of a reply. There is room for `ok`, so that this cannot fail for what was set.
fn make_text(reply: &Reply, text: &mut Vec<u8>) -> Result<(), AllocError>
    requires room { vec_len text.old + 3 ≤ vec_capacity text.old }
    requires empty { text.old.items ≡ [] }
    ensures text { OnOk result (text.new.items ≡ reply_line reply.now) }
    ensures sure { OnErr result (reply.now ≢ Reply.Done) }
{
    if let Reply::Done = reply {
        say_done(text);
        return Ok(());
    }
    reply_text(reply, text)
}

// Makes the line of a reply and prints it.
fn print_reply<S: Sink>(reply: &Reply, replies: &mut Replies, out: &mut S) -> Result<(), Status>
    requires room { vec_len replies.old.text + 3 ≤ vec_capacity replies.old.text }
    requires empty { replies.old.text.items ≡ [] }
    requires usable { S.usable out.old }
    ensures prints { PrintsLine result (reply_line reply.now) (S.pieces out.old) (S.pieces out.new) }
    ensures counts { CountsPrint result (S.faults out.old) (S.faults out.new) }
    ensures memory { result ≡ Err Status.Memory → reply.now ≡ Reply.Done
        → S.ample out.old ≡ false }
    ensures ample { S.ample out.new ≡ S.ample out.old }
    ensures usable { OnOk result (S.usable out.new) }
    ensures stops { IfErr result IsStop }
    ensures refused { replies.new.refused ≡ replies.old.refused }
{
    match make_text(reply, &mut replies.text) {
        Ok(()) => print_line(replies.text.as_slice(), out),
        Err(_) => Err(Status::Memory),
    }
}

// Whether a reply refuses its line.
fn is_refusal(reply: &Reply) -> bool
    ensures { result ≡ is_partial_refusal reply.now }
{
    match reply {
        Reply::Refused { .. } | Reply::Blind { .. } => true,
        _ => false,
    }
}

// Does a line and prints its reply, which tells whether the line was refused.
// Seven parameters: the line, and what is lent, each by its owner.
fn run_line<S: Sink, H: PairHash>(
    alloc: Global,
    schema: &Schema,
    partial: &mut Partial,
    line: &PartialLine,
    out: &mut S,
    hasher: &mut H,
    replies: &mut Replies,
) -> Result<(), Status>
    requires known { partial.old.id < length schema.now.trees }
    requires usable { S.usable out.old }
    ensures runs { RunsTurn
        (partial_turn_at H.pair_of schema.now partial.old (line.now.number, line.now.statement))
        result
        (record {
          known = partial.old.proof;
          hashed = H.pairs hasher.old;
          pieces = S.pieces out.old;
          ample = S.ample out.old;
          refused = replies.old.refused;
        })
        (record {
          known = partial.new.proof;
          hashed = H.pairs hasher.new;
          pieces = S.pieces out.new;
          ample = S.ample out.new;
          refused = replies.new.refused;
        }) }
    ensures same { partial.new.id ≡ partial.old.id }
    ensures usable { OnOk result (S.usable out.new) }
    ensures counts { CountsPartialFaults result (S.faults out.old) (S.faults out.new) }
    ensures stops { IfErr result IsStop }
    ensures rises { H.pairs hasher.old ≤ H.pairs hasher.new }
    ensures pairs { H.pairs hasher.new ≤ H.pairs hasher.old + partial_charge_of
        (partial_turn_at H.pair_of schema.now partial.old (line.now.number, line.now.statement)) }
{
    replies.begin();
    // (room for `ok`, before anything is set)
    if replies.text.reserve(3).is_err() {
        return Err(Status::Memory);
    }
    match reply_to(alloc, schema, partial, line, hasher) {
        Ok(reply) => {
            replies.refused = is_refusal(&reply) | replies.refused;
            print_reply(&reply, replies, out)
        }
        Err(_) => Err(Status::Memory),
    }
}

// Does all lines that are left.
// Seven parameters: the lines, and what is lent, each by its owner.
fn run_lines<S: Sink, H: PairHash>(
    alloc: Global,
    schema: &Schema,
    partial: &mut Partial,
    lines: &mut Lines<'_>,
    out: &mut S,
    hasher: &mut H,
    replies: &mut Replies,
) -> Result<(), Status>
    requires known { partial.old.id < length schema.now.trees }
    requires usable { S.usable out.old }
    ensures runs { RunsAll
        (partial_play H.pair_of (type_of schema.now partial.old.id) partial.old.proof
        (lines_said partial_statements lines.old)) result
        (record {
          known = partial.old.proof;
          hashed = H.pairs hasher.old;
          pieces = S.pieces out.old;
          ample = S.ample out.old;
          refused = replies.old.refused;
        })
        (record {
          known = partial.new.proof;
          hashed = H.pairs hasher.new;
          pieces = S.pieces out.new;
          ample = S.ample out.new;
          refused = replies.new.refused;
        }) }
    ensures same { partial.new.id ≡ partial.old.id }
    ensures usable { OnOk result (S.usable out.new) }
    ensures counts { CountsPartialFaults result (S.faults out.old) (S.faults out.new) }
    ensures stops { IfErr result IsStop }
    ensures rises { H.pairs hasher.old ≤ H.pairs hasher.new }
    ensures pairs { H.pairs hasher.new ≤ H.pairs hasher.old + partial_charges
        (partial_play H.pair_of (type_of schema.now partial.old.id) partial.old.proof
        (lines_said partial_statements lines.old)) }
{
    loop {
        match next_line(alloc, lines) {
            Err(_) => return Err(Status::Memory),
            Ok(None) => return Ok(()),
            Ok(Some(line)) => {
                let ran = run_line(alloc, schema, partial, &line, out, hasher, replies);
                drop(line);
                ran?;
            }
        }
    }
}

/// Runs a script over a tree of which the chunks of a proof are known, line after line; each line's
/// reply is printed in one piece. A line that is no statement is refused as such. A refusal changes
/// nothing of what is known, and the run goes on behind it.
///
/// Answers Accepted or Refused, the latter where a line was refused; WriteFault and Memory where a
/// fault of the sink or want of memory ended the run, with no line done behind it. A literal of
/// 2^32 bytes or more is want of memory.
///
/// Condition: the tree's type is one of the schema.
pub fn run_partial<S: Sink, H: PairHash>(
    alloc: Global,
    schema: &Schema,
    partial: &mut Partial,
    script: &[u8],
    out: &mut S,
    hasher: &mut H,
) -> Status
    requires known { partial.old.id < length schema.now.trees }
    requires usable { S.usable out.old }
    // Whatever the files hold, which it leaves alone, the run ended as the script's job does; and
    // where it was stopped, what is known is what the lines leave that were done.
    ensures ends { (held : Content) → EndsPartial held
        (partial_turns_of_script H.pair_of (type_of schema.now partial.old.id) partial.old.proof
        script.now) result
        (record {
          known = partial.old.proof;
          hashed = H.pairs hasher.old;
          pieces = S.pieces out.old;
          ample = S.ample out.old;
        })
        (record {
          known = partial.new.proof;
          hashed = H.pairs hasher.new;
          pieces = S.pieces out.new;
          ample = S.ample out.new;
        }) }
    // The fault that the status names was counted, and no other: none is passed over.
    ensures counts { (gets puts : ℕ) → CountsRun result gets gets puts puts (S.faults out.old)
        (S.faults out.new) }
    ensures rises { H.pairs hasher.old ≤ H.pairs hasher.new }
    // Only a `root` hashes, at most as many pairs as the leaves of the proof have levels together.
    ensures pairs { H.pairs hasher.new ≤ H.pairs hasher.old + partial_charges
        (partial_turns_of_script H.pair_of (type_of schema.now partial.old.id) partial.old.proof
        script.now) }
    ensures through { IsFinished result → partial.new ≡ record {
      id = partial.old.id;
      proof = known_last partial.old.proof (partial_turns_of_script H.pair_of
          (type_of schema.now partial.old.id) partial.old.proof script.now);
    } }
    ensures same { partial.new.id ≡ partial.old.id }
    // It answers none of these three.
    ensures usage { result ≢ Status.Usage }
    ensures schema { result ≢ Status.SchemaFault }
    ensures reads { result ≢ Status.ReadFault }
{
    let mut lines = Lines::new(script);
    let mut replies = Replies::new(alloc);
    match run_lines(
        alloc,
        schema,
        partial,
        &mut lines,
        out,
        hasher,
        &mut replies,
    ) {
        Ok(()) => replies.status(),
        Err(ended) => ended,
    }
}
