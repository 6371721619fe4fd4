// The statements of a work, one after another.
ghost use Rattle.std.specs.Prelude.{◌≡◌, ◌≤◌, [], IfOk, IfSome, OnOk};
ghost use Rattle.ssz_machine.specs.Drawing.{worked};
ghost use Rattle.ssz_draws.specs.Walked.{IsEditStatement};
ghost use Rattle.ssz_machine.specs.Machine.{is_refused};
ghost use Rattle.ssz_machine.specs.State.{State, Versions, version_of};
ghost use Rattle.ssz_machine.specs.Work.{turn_done, round, tops_of, walk_from, work_of, worked_on};
ghost use Rattle.ssz_script.specs.declared.statement.Statement.TheVariants.{Root};
ghost use Rattle.ssz_decisions.specs.Content.{rules_of};
ghost use Rattle.ssz_decisions.specs.Standing.{StandsForWriter};
ghost use Rattle.ssz_engine.specs.Steps.{WhereAccepted, is_refusal};
ghost use Rattle.ssz_decisions.specs.Roots.{HashesSome, RisesBy};
ghost use Rattle.ssz_engine.specs.Tops.{Tops};
ghost use Rattle.ssz_engine.specs.Scripts.{point};
ghost use Rattle.ssz_engine.specs.Works.{Draws, IsAtState, IsOfWork, Replies, Works, one_step, whole_work};
ghost use Rattle.ssz_engine.specs.Lines.{Tries};

use super::engine::Engine;
use super::script_line::reply_to;
use ssz_chunk::PairHash;
use ssz_decisions::{EngineFault, Outcome, Store};
use ssz_draws::{Generator, new_w, root_w, worked};
use ssz_machine::Place;
use ssz_outside::Files;
use ssz_script::{Identifier, ScriptStatement, Statement};
use ssz_versions::Writer;
use std::alloc::AllocError;

// Does a statement as writer 0. The line of its reply takes the place of what `reply` held.
fn answer<F: Files, H: PairHash>(
    engine: &mut Engine<H>,
    statement: Statement,
    files: &mut F,
    hasher: &mut H,
    reply: &mut Vec<u8>,
) -> Result<Outcome, EngineFault>
    requires of_work { IsOfWork statement }
    requires usable { F.usable files.old }
    ensures tries { Tries [] result (point F.Files H.PairHash engine.old files.old hasher.old)
        (point F.Files H.PairHash engine.new files.new hasher.new) }
    ensures works { (state : State) →
        let before = point F.Files H.PairHash engine.old files.old hasher.old in
        let turn = turn_done (rules_of H.pair_of engine.old) state statement in IsAtState state
        before
        → Works result (one_step turn) (λ made. Replies turn reply.new.items) before
        (point F.Files H.PairHash engine.new files.new hasher.new) }
    ensures outcome { (state : State)
        → IsAtState state (point F.Files H.PairHash engine.old files.old hasher.old)
        → IfOk result (λ made. is_refusal made
        ≡ is_refused (turn_done (rules_of H.pair_of engine.old) state statement)) }
    ensures tops { IfOk result (λ made. WhereAccepted made
        (Tops statement 0 engine.old engine.new)) }
    ensures some { OnOk result (HashesSome statement 0 engine.old (H.pairs hasher.old)
        (H.pairs hasher.new)) }
    ensures usable { OnOk result (F.usable files.new) }
{
    reply.clear();
    // No script holds it: it is of line 0.
    let line = ScriptStatement {
        line: 0,
        statement: Some(statement),
    };
    let made = reply_to(engine, Place::Run, Writer(0), &line, files, hasher, reply);
    drop(line);
    made
}

// Does `root w`.
fn answer_root<F: Files, H: PairHash>(
    engine: &mut Engine<H>,
    files: &mut F,
    hasher: &mut H,
    reply: &mut Vec<u8>,
) -> Result<Outcome, EngineFault>
    requires usable { F.usable files.old }
    ensures tries { Tries [] result (point F.Files H.PairHash engine.old files.old hasher.old)
        (point F.Files H.PairHash engine.new files.new hasher.new) }
    ensures works { (state : State) →
        let before = point F.Files H.PairHash engine.old files.old hasher.old in
        let turn = turn_done (rules_of H.pair_of engine.old) state (Root worked) in
        IsAtState state before
        → Works result (one_step turn) (λ made. Replies turn reply.new.items) before
        (point F.Files H.PairHash engine.new files.new hasher.new) }
    ensures some { OnOk result (HashesSome (Root worked) 0 engine.old (H.pairs hasher.old)
        (H.pairs hasher.new)) }
    ensures usable { OnOk result (F.usable files.new) }
{
    let Ok(asked) = root_w(engine.store.alloc) else {
        return Err(EngineFault::Memory);
    };
    answer(engine, asked, files, hasher, reply)
}

// The edit that a walk from the whole value of `w` comes to, if any.
fn draw_edit<H: PairHash>(
    store: &Store<H>,
    generator: &mut Generator,
) -> Result<Option<Statement>, AllocError>
    ensures drawn { (versions : Versions) → StandsForWriter store.now 0 versions → IfOk result
        (Draws (version_of worked versions) generator.old generator.new) }
    ensures edits { IfOk result (λ edit. IfSome edit IsOfWork) }
    ensures named { IfOk result (λ edit. IfSome edit IsEditStatement) }
{
    let name = worked(store.alloc)?;
    let Some(held) = store.versions.get(Writer(0), name.as_name()) else {
        return Ok(None);
    };
    generator.walk(store.alloc, &store.arena, &store.schema, held.0, held.1)
}

// Does the edit that a walk comes to, if any, and then `root w`. Answers how many edits there were.
fn work_round<F: Files, H: PairHash>(
    engine: &mut Engine<H>,
    generator: &mut Generator,
    files: &mut F,
    hasher: &mut H,
    reply: &mut Vec<u8>,
) -> Result<u32, EngineFault>
    requires usable { F.usable files.old }
    ensures tries { Tries [] result (point F.Files H.PairHash engine.old files.old hasher.old)
        (point F.Files H.PairHash engine.new files.new hasher.new) }
    ensures works { (state : State) →
        let before = point F.Files H.PairHash engine.old files.old hasher.old in
        let way = walk_from (version_of worked (state.versions 0)) generator.old in
        let whole = round (rules_of H.pair_of engine.old) state way.edit in IsAtState state before
        → Works result whole (λ edits. (edits ≡ whole.edits) × (generator.new ≡ way.seed)) before
        (point F.Files H.PairHash engine.new files.new hasher.new) }
    ensures least { (state : State)
        → IsAtState state (point F.Files H.PairHash engine.old files.old hasher.old)
        → let way = walk_from (version_of worked (state.versions 0)) generator.old in
        OnOk result (RisesBy (tops_of (rules_of H.pair_of engine.old) state way.edit)
        (H.pairs hasher.old) (H.pairs hasher.new)) }
    ensures few { IfOk result (λ edits. edits ≤ 1) }
    ensures usable { OnOk result (F.usable files.new) }
{
    match draw_edit(&engine.store, generator) {
        Err(_) => Err(EngineFault::Memory),
        Ok(None) => {
            answer_root(engine, files, hasher, reply)?;
            Ok(0)
        }
        Ok(Some(edit)) => {
            answer(engine, edit, files, hasher, reply)?;
            answer_root(engine, files, hasher, reply)?;
            Ok(1)
        }
    }
}

// Does so many rounds. Answers how many edits there were.
fn work_rounds<F: Files, H: PairHash>(
    engine: &mut Engine<H>,
    seed: u64,
    count: u32,
    files: &mut F,
    hasher: &mut H,
    reply: &mut Vec<u8>,
) -> Result<u32, EngineFault>
    requires usable { F.usable files.old }
    ensures tries { Tries [] result (point F.Files H.PairHash engine.old files.old hasher.old)
        (point F.Files H.PairHash engine.new files.new hasher.new) }
    ensures works { (state : State) →
        let before = point F.Files H.PairHash engine.old files.old hasher.old in
        let whole = worked_on (rules_of H.pair_of engine.old) count seed state in
        IsAtState state before → Works result whole (λ edits. edits ≡ whole.edits) before
        (point F.Files H.PairHash engine.new files.new hasher.new) }
    ensures least { (state : State)
        → IsAtState state (point F.Files H.PairHash engine.old files.old hasher.old)
        → OnOk result (RisesBy (worked_on (rules_of H.pair_of engine.old) count seed state).tops
        (H.pairs hasher.old) (H.pairs hasher.new)) }
    ensures usable { OnOk result (F.usable files.new) }
{
    let mut generator = Generator::new(seed);
    let mut edits = 0;
    for _round in 0..count {
        edits += work_round(engine, &mut generator, files, hasher, reply)?;
    }
    Ok(edits)
}

/// Makes `w` of the type, edits it so many times with its root after each edit, and answers how
/// many edits there were. `reply` then holds the line of the root.
///
/// Seven parameters: what the words say, and what is lent, each by its owner.
pub(crate) fn work_through<F: Files, H: PairHash>(
    engine: &mut Engine<H>,
    type_name: &Identifier,
    seed: u64,
    count: u32,
    files: &mut F,
    hasher: &mut H,
    reply: &mut Vec<u8>,
) -> Result<u32, EngineFault>
    requires usable { F.usable files.old }
    ensures tries { Tries [] result (point F.Files H.PairHash engine.old files.old hasher.old)
        (point F.Files H.PairHash engine.new files.new hasher.new) }
    ensures works { (state : State) →
        let before = point F.Files H.PairHash engine.old files.old hasher.old in
        let rules = rules_of H.pair_of engine.old in
        let work = work_of rules state type_name.now seed count in IsAtState state before
        → Works result (whole_work rules state type_name.now seed count)
        (λ edits. (edits ≡ work.edits)
        × Replies (turn_done rules work.state (Root worked)) reply.new.items) before
        (point F.Files H.PairHash engine.new files.new hasher.new) }
    ensures least { (state : State)
        → IsAtState state (point F.Files H.PairHash engine.old files.old hasher.old)
        → OnOk result (RisesBy (whole_work (rules_of H.pair_of engine.old) state type_name.now seed
        count).tops (H.pairs hasher.old) (H.pairs hasher.new)) }
    ensures usable { OnOk result (F.usable files.new) }
{
    let Ok(made) = new_w(engine.store.alloc, type_name) else {
        return Err(EngineFault::Memory);
    };
    answer(engine, made, files, hasher, reply)?;
    let edits = work_rounds(engine, seed, count, files, hasher, reply)?;
    answer_root(engine, files, hasher, reply)?;
    Ok(edits)
}
