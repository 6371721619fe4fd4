// One line of a script.
ghost use Rattle.std.specs.Prelude.{◌≡◌, ◌≤◌, ◌+◌, ◌∷◌, [], false, is_err, Err, IfOk, IfSome, OnOk, OnErr};
ghost use Rattle.ssz_arena.specs.Content.{unhashed};
ghost use Rattle.ssz_outside.specs.Job.{IsFinished};
ghost use Rattle.ssz_machine.specs.Plays.{says};
ghost use Rattle.ssz_engine.specs.Lines.{AsksLine, DoesLine, LeavesOthers, ended_by, Tries};
ghost use Rattle.ssz_decisions.specs.Standing.{StaysFor};
ghost use Rattle.ssz_engine.specs.Steps.{WhereAccepted, is_refusal};
ghost use Rattle.ssz_decisions.specs.Roots.{LeavesHashed, HashesSome};
ghost use Rattle.ssz_engine.specs.Tops.{Tops};
ghost use Rattle.ssz_engine.specs.Points.{Runs};
ghost use Rattle.ssz_engine.specs.Scripts.{point, scene};

use super::engine::Engine;
use ssz_chunk::PairHash;
use ssz_decisions::{EngineFault, Outcome, push_front, say};
use ssz_machine::Place;
use ssz_outside::{Files, Replies, Sink, Status, print_line};
use ssz_script::{Reply, ScriptStatement};
use ssz_versions::Writer;

/// Does what a line of a writer says, and appends the line of the reply. A literal of 2^32 bytes or
/// more is want of memory.
///
/// Seven parameters, as of `Engine::step`.
pub(crate) fn reply_to<F: Files, H: PairHash>(
    engine: &mut Engine<H>,
    place: Place,
    writer: Writer,
    line: &ScriptStatement,
    files: &mut F,
    hasher: &mut H,
    out: &mut Vec<u8>,
) -> Result<Outcome, EngineFault>
    requires usable { F.usable files.old }
    ensures tries { Tries ((line.now.line, line.now.statement) ∷ []) result
        (point F.Files H.PairHash engine.old files.old hasher.old)
        (point F.Files H.PairHash engine.new files.new hasher.new) }
    ensures hashed { H.pairs hasher.new ≤ H.pairs hasher.old + unhashed engine.old.arena }
    ensures does { DoesLine H.pair_of place writer.0 (line.now.line, line.now.statement) result
        (point F.Files H.PairHash engine.old files.old hasher.old)
        (point F.Files H.PairHash engine.new files.new hasher.new) out.old.items out.new.items }
    ensures others { LeavesOthers writer.0 engine.old.entries engine.new.entries }
    ensures stays { OnErr result (StaysFor engine.old engine.new) }
    ensures roots { IfOk result (λ made. IfSome line.now.statement (λ statement.
        LeavesHashed statement writer.0 engine.new)) }
    ensures tops { IfOk result (λ made. IfSome line.now.statement (λ statement.
        WhereAccepted made (Tops statement writer.0 engine.old engine.new))) }
    ensures some { OnOk result (IfSome line.now.statement (λ statement.
        HashesSome statement writer.0 engine.old (H.pairs hasher.old) (H.pairs hasher.new))) }
    ensures each_once { AsksLine H.pair_of place writer.0 (line.now.line, line.now.statement)
        (is_err result) (point F.Files H.PairHash engine.old files.old hasher.old)
        (point F.Files H.PairHash engine.new files.new hasher.new) }
    ensures usable { OnOk result (F.usable files.new) }
{
    let Some(statement) = &line.statement else {
        let (line, code, fault) = (line.line, Reply::SYNTAX, None);
        let refused = Reply::Refused { line, code, fault };
        return Ok(say(refused, Outcome::Refused, out)?);
    };
    if !statement.has_short_literal() {
        return Err(EngineFault::Memory);
    }
    engine.step(writer, place, line.line, statement, files, hasher, out)
}

/// The status of a run that a line ended.
pub(crate) fn status_of(fault: EngineFault) -> Status
    ensures value { result ≡ ended_by fault }
    ensures stops { ¬ IsFinished result }
{
    match fault {
        EngineFault::Read => Status::ReadFault,
        EngineFault::Write => Status::WriteFault,
        EngineFault::Memory => Status::Memory,
    }
}

// Whether a line was refused.
fn is_refusal(made: Outcome) -> bool
    ensures { result ≡ is_refusal made }
{
    match made {
        Outcome::Accepted => false,
        Outcome::Refused => true,
    }
}

/// Does a line of a writer and prints its reply, which tells whether the line was refused.
///
/// Eight parameters: who says which line where, and what is lent, each by its owner.
pub(crate) fn run_line<F: Files, S: Sink, H: PairHash>(
    engine: &mut Engine<H>,
    place: Place,
    writer: Writer,
    line: &ScriptStatement,
    files: &mut F,
    out: &mut S,
    hasher: &mut H,
    replies: &mut Replies,
) -> Result<(), Status>
    requires files_usable { F.usable files.old }
    requires sink_usable { S.usable out.old }
    ensures runs { Runs H.pair_of place (says writer.0 (line.now.line, line.now.statement) ∷ [])
        result replies.old.refused replies.new.refused
        (scene F.Files S.Sink H.PairHash engine.old files.old out.old hasher.old)
        (scene F.Files S.Sink H.PairHash engine.new files.new out.new hasher.new) }
    ensures others { LeavesOthers writer.0 engine.old.entries engine.new.entries }
    ensures files_usable { OnOk result (F.usable files.new) }
    ensures sink_usable { OnOk result (S.usable out.new) }
{
    replies.begin();
    let text = &mut replies.text;
    if push_front(place, writer, text).is_err() {
        return Err(Status::Memory);
    }
    match reply_to(engine, place, writer, line, files, hasher, text) {
        Ok(made) => {
            replies.refused = is_refusal(made) | replies.refused;
            print_line(replies.text.as_slice(), out)
        }
        Err(fault) => Err(status_of(fault)),
    }
}
