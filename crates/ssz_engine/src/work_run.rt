// The command `work`.
ghost use Rattle.std.specs.Prelude.{◌≡◌, ◌≤◌, ◌∷◌, [], ℕ, List, IfOk, Some, codes, decimal, string_bytes};
ghost use Rattle.ssz_arena.specs.Content.{KeepsNodes};
ghost use Rattle.ssz_outside.specs.Content.{Content as Held};
ghost use Rattle.ssz_outside.specs.Job.{CountsRun, Ends, IsThatOrStopped};
ghost use Rattle.ssz_script.specs.Texts.{line};
ghost use Rattle.ssz_engine.specs.Scripts.{scene};
ghost use Rattle.ssz_decisions.specs.Content.{KeepsEngine};
ghost use Rattle.ssz_engine.specs.Works.{EndsWork, two_lines_job};

use super::engine::Engine;
use super::script_line::status_of;
use super::work_steps::work_through;
use ssz_chunk::PairHash;
use ssz_outside::{Files, Sink, Status, print_line};
use ssz_script::Identifier;
use std::alloc::{AllocError, Global};

// The first line: how many edits were to be made, and how many were.
fn work_line(alloc: Global, count: u32, edits: u32) -> Result<String, AllocError>
    ensures { IfOk result (λ text. string_bytes text
        ≡ line (codes "work" ∷ decimal count ∷ decimal edits ∷ [])) }
{
    format!(in alloc; "work {count} {edits}\n")
}

// Prints the two lines.
fn print_work<S: Sink>(alloc: Global, count: u32, edits: u32, root: &[u8], out: &mut S) -> Status
    requires usable { S.usable out.old }
    ensures ends { (held : Held) → Ends (S.ample out.old) result (two_lines_job held
        (line (codes "work" ∷ decimal count ∷ decimal edits ∷ [])) root.now)
        (S.pieces out.old) (S.pieces out.new) (Some held) }
    ensures counts { (gets puts : ℕ) → CountsRun result gets gets puts puts
        (S.faults out.old) (S.faults out.new) }
    ensures status { IsThatOrStopped Status.Accepted result }
{
    let Ok(first) = work_line(alloc, count, edits) else {
        return Status::Memory;
    };
    match print_line(first.as_bytes(), out) {
        Ok(()) => {}
        Err(ended) => return ended,
    }
    match print_line(root, out) {
        Ok(()) => Status::Accepted,
        Err(ended) => ended,
    }
}

impl<H: PairHash> Engine<H> {
    /// Makes the version `w` of the type as writer 0, and edits it so many times: each edit is
    /// drawn by the generator that begins with the seed, on a walk through the value as it stands,
    /// and `root w` follows it. Then prints how many edits were to be made and how many walks came
    /// to one, and the root of `w`.
    ///
    /// Answers Accepted; WriteFault and Memory where a fault or want of memory ended it.
    ///
    /// Seven parameters: what the words say, and what is lent, each by its owner.
    pub fn work<F: Files, S: Sink>(
        &mut self,
        type_name: &Identifier,
        seed: u64,
        edits: u32,
        files: &mut F,
        out: &mut S,
        hasher: &mut H,
    ) -> Status
        requires files_usable { F.usable files.old }
        requires sink_usable { S.usable out.old }
        ensures keeps { KeepsEngine self.old self.new }
        // Each node is there, with the same tree and no more to be hashed.
        ensures nodes { KeepsNodes self.old.arena self.new.arena }
        // Whatever state of the machine the engine stood for, where the files tell what they hold,
        // it ended as the job of the work does.
        ensures ends { EndsWork H.pair_of type_name.now seed edits result
            (scene F.Files S.Sink H.PairHash self.old files.old out.old hasher.old)
            (scene F.Files S.Sink H.PairHash self.new files.new out.new hasher.new) }
        // The fault that the status names was counted, and no other: none is passed over.
        ensures counts { CountsRun result (F.get_faults files.old) (F.get_faults files.new)
            (F.put_faults files.old) (F.put_faults files.new) (S.faults out.old)
            (S.faults out.new) }
        ensures rises { H.pairs hasher.old ≤ H.pairs hasher.new }
        ensures readable { (other : List ℕ) → F.readable files.old other
            → F.readable files.new other }
        // The files are asked for nothing.
        ensures asks { F.asked files.new ≡ F.asked files.old }
        // It answers none of the others.
        ensures status { IsThatOrStopped Status.Accepted result }
    {
        let mut reply = Vec::new(self.store.alloc);
        match work_through(self, type_name, seed, edits, files, hasher, &mut reply) {
            Ok(made) => print_work(self.store.alloc, edits, made, reply.as_slice(), out),
            Err(fault) => status_of(fault),
        }
    }
}
