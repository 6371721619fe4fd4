// Scripts of several writers that take turns.
ghost use Rattle.std.specs.Prelude.{◌≡◌, ◌≢◌, ◌≤◌, ◌<◌, ◌∷◌, ◌++◌, ℕ, List, All, length, map, IfOk, OnOk};
ghost use Rattle.std.specs.List.{AllByRecursion};
ghost use Rattle.ssz_arena.specs.Content.{KeepsNodes};
ghost use Rattle.ssz_outside.specs.Job.{CountsRun};
ghost use Rattle.ssz_script.specs.Lines.{statements_in};
ghost use Rattle.ssz_machine.specs.Machine.{Line};
ghost use Rattle.ssz_machine.specs.Plays.{adoptions, all_of, base_writer, weaving};
ghost use Rattle.ssz_machine.specs.declared.place.Place.TheVariants.{Weave};
ghost use Rattle.ssz_engine.specs.Compacting.{NoneCompacts};
ghost use Rattle.ssz_engine.specs.Points.{Runs};
ghost use Rattle.ssz_engine.specs.Scripts.{AreNamedReadable, scene};
ghost use Rattle.ssz_decisions.specs.Content.{KeepsEngine};
ghost use Rattle.ssz_engine.specs.Weaves.{EndsWeave, IsolatesWriters};
ghost use Rattle.ssz_decisions.specs.Standing.{HoldsNone};

use super::engine::Engine;
use super::run::run_lines;
use super::turns::{run_rest, run_turns};
use ssz_bytes::ByteRun;
use ssz_chunk::PairHash;
use ssz_decisions::{BASE, adopt_all};
use ssz_machine::Place;
use ssz_outside::{Files, Replies, Sink, Status};
use ssz_script::Statements;
use std::alloc::{AllocError, Global};

// The statements of each script, from its first line on.
fn statements_of<'a>(
    alloc: Global,
    scripts: &'a [ByteRun],
) -> Result<Vec<Statements<'a>>, AllocError>
    ensures { IfOk result (λ lines. lines.items ≡ map statements_in scripts.now) }
{
    let mut lines = Vec::new(alloc);
    for script in scripts {
        lines.push(Statements::new(script.as_slice()))?;
    }
    Ok(lines)
}

// Runs the base, and gives the writers of so many scripts its versions.
// Seven parameters: the base, and what is lent, each by its owner.
fn run_base<F: Files, S: Sink, H: PairHash>(
    engine: &mut Engine<H>,
    base: &[u8],
    count: usize,
    files: &mut F,
    out: &mut S,
    hasher: &mut H,
    replies: &mut Replies,
) -> Result<(), Status>
    requires few { count ≤ base_writer }
    requires none { (writer : ℕ) → writer < count → HoldsNone engine.old.entries writer }
    requires files_usable { F.usable files.old }
    requires sink_usable { S.usable out.old }
    ensures runs { (scripts : List (List Line)) → length scripts ≡ count
        → Runs H.pair_of Weave (all_of base_writer (statements_in base.now) ++ adoptions 0 scripts)
        result replies.old.refused replies.new.refused
        (scene F.Files S.Sink H.PairHash engine.old files.old out.old hasher.old)
        (scene F.Files S.Sink H.PairHash engine.new files.new out.new hasher.new) }
    ensures files_usable { OnOk result (F.usable files.new) }
    ensures sink_usable { OnOk result (S.usable out.new) }
{
    let mut lines = Statements::new(base);
    let weave = Place::Weave;
    run_lines(engine, weave, BASE, &mut lines, files, out, hasher, replies)?;
    match adopt_all(&mut engine.store, count) {
        Ok(()) => {}
        Err(_) => return Err(Status::Memory),
    }
    Ok(())
}

// Runs the base, and then the scripts in turns.
// Eight parameters: the scripts with their order, and what is lent, each by its owner.
fn run_weave<F: Files, S: Sink, H: PairHash>(
    engine: &mut Engine<H>,
    base: &[u8],
    order: &[u8],
    scripts: &[ByteRun],
    files: &mut F,
    out: &mut S,
    hasher: &mut H,
    replies: &mut Replies,
) -> Result<(), Status>
    requires few { length scripts.now ≤ base_writer }
    requires known { All (λ writer. writer < length scripts.now) order.now }
    requires none { (writer : ℕ) → writer < length scripts.now
        → HoldsNone engine.old.entries writer }
    requires files_usable { F.usable files.old }
    requires sink_usable { S.usable out.old }
    ensures { Runs H.pair_of Weave
        (weaving (statements_in base.now) order.now (map statements_in scripts.now)) result
        replies.old.refused replies.new.refused
        (scene F.Files S.Sink H.PairHash engine.old files.old out.old hasher.old)
        (scene F.Files S.Sink H.PairHash engine.new files.new out.new hasher.new) }
{
    let Ok(mut lines) = statements_of(engine.store.alloc, scripts) else {
        return Err(Status::Memory);
    };
    run_base(engine, base, lines.len(), files, out, hasher, replies)?;
    run_turns(engine, order, &mut lines, files, out, hasher, replies)?;
    run_rest(engine, &mut lines, files, out, hasher, replies)
}

impl<H: PairHash> Engine<H> {
    /// Runs a base as writer 255, and then scripts in turns, the script at place w as writer w.
    /// Each of these writers first takes over the base's versions. Then each number of the order
    /// runs the next line of that writer, or nothing where it has none left, and what is left then
    /// runs writer by writer. Each reply is printed in one piece, behind the mark of its writer.
    /// Lines are numbered in each script by itself; `save` and `hashes` are refused.
    ///
    /// There are at most 255 scripts, the order has numbers below their number, and none of their
    /// writers has a version yet.
    ///
    /// Answers Accepted or Refused, the latter where a line was refused; ReadFault, WriteFault and
    /// Memory where a fault or want of memory ended the run, with no line done behind it. A literal
    /// of 2^32 bytes or more is want of memory.
    ///
    /// Seven parameters: the scripts with their order, and what is lent, each by its owner.
    pub fn weave<F: Files, S: Sink>(
        &mut self,
        base: &[u8],
        order: &[u8],
        scripts: &[ByteRun],
        files: &mut F,
        out: &mut S,
        hasher: &mut H,
    ) -> Status
        requires few { length scripts.now ≤ base_writer }
        requires known { All (λ writer. writer < length scripts.now) order.now }
        requires none { (writer : ℕ) → writer < length scripts.now
            → HoldsNone self.old.entries writer }
        requires files_usable { F.usable files.old }
        requires sink_usable { S.usable out.old }
        ensures keeps { KeepsEngine self.old self.new }
        // Each node is there, with the same tree and no more to be hashed, where no line gives up
        // nodes.
        ensures nodes { AllByRecursion NoneCompacts (map statements_in (base.now ∷ scripts.now))
            → KeepsNodes self.old.arena self.new.arena }
        // Whatever state of the machine the engine stood for, where the files tell what they hold,
        // the run ended as the weave's job does; and where it was stopped, the engine stands for
        // the versions after the lines that were done.
        ensures ends { EndsWeave H.pair_of base.now order.now scripts.now result
            (scene F.Files S.Sink H.PairHash self.old files.old out.old hasher.old)
            (scene F.Files S.Sink H.PairHash self.new files.new out.new hasher.new) }
        // Of what the sink was given, the lines with the mark of a script's writer are those that
        // its script prints alone, from the base's versions and with no other writer there: a front
        // of them, and all where no fault or want of memory ended the run.
        ensures isolated { IsolatesWriters H.pair_of base.now scripts.now result
            (scene F.Files S.Sink H.PairHash self.old files.old out.old hasher.old)
            (scene F.Files S.Sink H.PairHash self.new files.new out.new hasher.new) }
        // The fault that the status names was counted, and no other: none is passed over.
        ensures counts { CountsRun result (F.get_faults files.old) (F.get_faults files.new)
            (F.put_faults files.old) (F.put_faults files.new) (S.faults out.old)
            (S.faults out.new) }
        ensures rises { H.pairs hasher.old ≤ H.pairs hasher.new }
        ensures readable { (other : List ℕ) → F.readable files.old other
            → F.readable files.new other }
        // It answers none of these two.
        ensures usage { result ≢ Status.Usage }
        ensures schema { result ≢ Status.SchemaFault }
        // Also where it is not told what the files hold, a read fails only of a file that the base
        // or a script names for reading.
        ensures fails { AllByRecursion (AreNamedReadable (F.readable files.old))
            (map statements_in (base.now ∷ scripts.now)) → result ≢ Status.ReadFault }
    {
        let mut replies = Replies::new(self.store.alloc);
        match run_weave(self, base, order, scripts, files, out, hasher, &mut replies) {
            Ok(()) => replies.status(),
            Err(ended) => ended,
        }
    }
}
