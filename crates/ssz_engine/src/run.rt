// Scripts that run alone, line after line.
ghost use Rattle.std.specs.Prelude.{◌≢◌, ◌≤◌, ℕ, List, OnOk};
ghost use Rattle.std.specs.List.{AllByRecursion};
ghost use Rattle.ssz_arena.specs.Content.{KeepsNodes};
ghost use Rattle.ssz_outside.specs.Job.{CountsRun};
ghost use Rattle.ssz_script.specs.Lines.{statements_in};
ghost use Rattle.ssz_machine.specs.Plays.{all_of};
ghost use Rattle.ssz_engine.specs.Compacting.{NoneCompacts};
ghost use Rattle.ssz_engine.specs.Lines.{LeavesOthers};
ghost use Rattle.ssz_engine.specs.Points.{Runs};
ghost use Rattle.ssz_engine.specs.Scripts.{EndsScript, files_named, scene};
ghost use Rattle.ssz_decisions.specs.Content.{KeepsEngine};

use super::engine::Engine;
use super::script_line::run_line;
use ssz_chunk::PairHash;
use ssz_machine::Place;
use ssz_outside::{Files, Replies, Sink, Status};
use ssz_script::Statements;
use ssz_versions::Writer;

/// Does all lines that are left of a writer's script.
/// Eight parameters: whose lines, and what is lent, each by its owner.
pub(crate) fn run_lines<F: Files, S: Sink, H: PairHash>(
    engine: &mut Engine<H>,
    place: Place,
    writer: Writer,
    lines: &mut Statements<'_>,
    files: &mut F,
    out: &mut S,
    hasher: &mut H,
    replies: &mut Replies,
) -> Result<(), Status>
    requires files_usable { F.usable files.old }
    requires sink_usable { S.usable out.old }
    ensures runs { Runs H.pair_of place (all_of writer.0 lines.old) result replies.old.refused
        replies.new.refused
        (scene F.Files S.Sink H.PairHash engine.old files.old out.old hasher.old)
        (scene F.Files S.Sink H.PairHash engine.new files.new out.new hasher.new) }
    ensures others { LeavesOthers writer.0 engine.old.entries engine.new.entries }
    ensures files_usable { OnOk result (F.usable files.new) }
    ensures sink_usable { OnOk result (S.usable out.new) }
{
    loop {
        match lines.next(engine.store.alloc) {
            Err(_) => return Err(Status::Memory),
            Ok(None) => return Ok(()),
            Ok(Some(line)) => {
                let ran = run_line(engine, place, writer, &line, files, out, hasher, replies);
                drop(line);
                ran?;
            }
        }
    }
}

impl<H: PairHash> Engine<H> {
    /// Runs a script that stands alone, line after line, as writer 0; each line's reply is printed
    /// in one piece. A line that is no statement is refused as such, and the run goes on behind it.
    ///
    /// Answers Accepted or Refused, the latter where a line was refused; ReadFault, WriteFault and
    /// Memory where a fault or want of memory ended the run, with no line done behind it. A literal
    /// of 2^32 bytes or more is want of memory.
    pub fn run_script<F: Files, S: Sink>(
        &mut self,
        script: &[u8],
        files: &mut F,
        out: &mut S,
        hasher: &mut H,
    ) -> Status
        requires files_usable { F.usable files.old }
        requires sink_usable { S.usable out.old }
        ensures keeps { KeepsEngine self.old self.new }
        // Each node is there, with the same tree and no more to be hashed, where no line gives up
        // nodes.
        ensures nodes { NoneCompacts (statements_in script.now)
            → KeepsNodes self.old.arena self.new.arena }
        // Whatever state of the machine the engine stood for, where the files tell what they hold:
        // for some numbers that `hashes` prints, the run ended as the script's job does; and where
        // it was stopped, the engine stands for the versions after the lines that were done.
        ensures ends { EndsScript H.pair_of script.now result
            (scene F.Files S.Sink H.PairHash self.old files.old out.old hasher.old)
            (scene F.Files S.Sink H.PairHash self.new files.new out.new hasher.new) }
        // The fault that the status names was counted, and no other: none is passed over.
        ensures counts { CountsRun result (F.get_faults files.old) (F.get_faults files.new)
            (F.put_faults files.old) (F.put_faults files.new) (S.faults out.old)
            (S.faults out.new) }
        ensures rises { H.pairs hasher.old ≤ H.pairs hasher.new }
        ensures readable { (other : List ℕ) → F.readable files.old other
            → F.readable files.new other }
        // It answers none of these two.
        ensures usage { result ≢ Status.Usage }
        ensures schema { result ≢ Status.SchemaFault }
        // Also where it is not told what the files hold, a read fails only of a file that the
        // script names for reading.
        ensures fails { AllByRecursion (F.readable files.old)
            (files_named (statements_in script.now)) → result ≢ Status.ReadFault }
    {
        let mut lines = Statements::new(script);
        let mut replies = Replies::new(self.store.alloc);
        match run_lines(
            self,
            Place::Run,
            Writer(0),
            &mut lines,
            files,
            out,
            hasher,
            &mut replies,
        ) {
            Ok(()) => replies.status(),
            Err(ended) => ended,
        }
    }
}
