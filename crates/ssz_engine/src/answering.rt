//! Statements whose reply is answered as a value, with no line made of it.
ghost use Rattle.std.specs.Prelude.{◌≡◌, ◌≢◌, ◌+◌, ◌-◌, ◌≤◌, ℕ, List, is_err, is_some, Some, None, Err, true, false, IfOk, IfErr, OnOk, OnErr};
ghost use Rattle.ssz_arena.specs.Content.{KeepsNodes, node_count, unhashed};
ghost use Rattle.ssz_outside.specs.Content.{CanRead};
ghost use Rattle.ssz_script.specs.Literals.{HasShortLiteral};
ghost use Rattle.ssz_machine.specs.Counts.{asks_root};
ghost use Rattle.ssz_versions.specs.Compacted.{IsCompacted};
ghost use Rattle.ssz_engine.specs.Answered.{DoesAnswer};
ghost use Rattle.ssz_engine.specs.Compacting.{is_compact};
ghost use Rattle.ssz_decisions.specs.Content.{KeepsEngine};
ghost use Rattle.ssz_decisions.specs.Roots.{HashesDue, HashesSome};
ghost use Rattle.ssz_decisions.specs.Outside.{CountsReads, CountsWrites};
ghost use Rattle.ssz_engine.specs.Steps.{AsksStatement, StatementFindsFile, Stops, file_read};

use super::deciding::decide;
use super::engine::Engine;
use ssz_chunk::PairHash;
use ssz_decisions::{EngineFault, carry, compact};
use ssz_machine::Place;
use ssz_outside::Files;
use ssz_script::{Reply, Statement};
use ssz_versions::Writer;

impl<H: PairHash> Engine<H> {
    /// How many nodes there are, the zero trees among them.
    pub fn node_count(&self) -> usize
        ensures { result ≡ node_count self.now.arena }
    {
        self.store.arena.len()
    }

    /// Does a statement as `step` does, and answers the reply itself: a root, an encoding or a
    /// refusal's code is had without a text. All memory is taken before a version or a file
    /// changes.
    ///
    /// Seven parameters, as of `step`.
    pub fn answer<F: Files>(
        &mut self,
        writer: Writer,
        place: Place,
        line: u64,
        statement: &Statement,
        files: &mut F,
        hasher: &mut H,
    ) -> Result<Reply, EngineFault>
        requires short { HasShortLiteral statement.now }
        requires usable { F.usable files.old }
        ensures keeps { KeepsEngine self.old self.new }
        // The clauses that `step` has, too, are told of there.
        ensures nodes { is_compact statement.now ≡ false
            → KeepsNodes self.old.arena self.new.arena }
        ensures compacted { is_compact statement.now ≡ true → OnOk result
            (IsCompacted self.old.entries self.new.entries self.old.arena self.new.arena) }
        // A statement that was not done adds no node, and `compact` then leaves all as it was.
        ensures whole { OnErr result (node_count self.new.arena ≡ node_count self.old.arena) }
        ensures intact { is_compact statement.now ≡ true → OnErr result (self.new ≡ self.old) }
        ensures ok { IfOk result (DoesAnswer H.pair_of place writer.0 line statement.now self.old
            self.new (H.pairs hasher.old) (H.pairs hasher.new) (F.content files.old)
            (F.content files.new)) }
        ensures err { OnErr result (self.new.entries ≡ self.old.entries) }
        ensures stops { IfErr result (λ fault. Stops fault H.pair_of place writer.0 line
            (H.pairs hasher.old - self.old.base) statement.now self.old (F.content files.old)
            (F.content files.new)) }
        ensures told { is_some (F.content files.new) ≡ is_some (F.content files.old) }
        ensures rises { H.pairs hasher.old ≤ H.pairs hasher.new }
        ensures hashed { H.pairs hasher.new ≤ H.pairs hasher.old + unhashed self.old.arena }
        ensures due { HashesDue statement.now writer.0 self.old (H.pairs hasher.old)
            (H.pairs hasher.new) }
        ensures some { OnOk result (HashesSome statement.now writer.0 self.old
            (H.pairs hasher.old) (H.pairs hasher.new)) }
        ensures still { asks_root (Some statement.now) ≡ false → hasher.new ≡ hasher.old }
        ensures fails { (name : List ℕ) → file_read statement.now ≡ Some name
            → F.readable files.old name → result ≢ Err EngineFault.Read }
        ensures present { (name : List ℕ) → file_read statement.now ≡ Some name
            → CanRead (F.content files.old) name → result ≢ Err EngineFault.Read }
        ensures found { OnOk result (StatementFindsFile H.pair_of self.old writer.0 statement.now
            (F.content files.old)) }
        ensures asks { file_read statement.now ≡ None → result ≢ Err EngineFault.Read }
        ensures readable { (other : List ℕ) → F.readable files.old other
            → F.readable files.new other }
        ensures gets { CountsReads result (F.get_faults files.old) (F.get_faults files.new) }
        ensures puts { CountsWrites result (F.put_faults files.old) (F.put_faults files.new) }
        ensures each_once { AsksStatement H.pair_of self.old writer.0 statement.now (is_err result)
            (F.asked files.old) (F.asked files.new) }
        ensures usable { OnOk result (F.usable files.new) }
    {
        if let Statement::Compact = statement {
            let mut out = Vec::new(self.store.alloc);
            compact(&mut self.store, &mut out)?;
            return Ok(Reply::Done);
        }
        // So what its clauses say of all versions for which it stands is said of some.
        self.stands();
        let decision = decide(&mut self.store, writer, place, statement, files, hasher)?;
        carry(&mut self.store, writer, line, decision, files)
    }
}
