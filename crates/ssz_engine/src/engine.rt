ghost use Rattle.std.specs.Prelude.{◌≡◌, ◌≢◌, ◌+◌, ◌-◌, ◌≤◌, ℕ, List, [], is_err, is_some, Some, None, Err, true, false, IfOk, IfErr, OnOk, OnErr};
ghost use Rattle.std.specs.FinMap as finite;
ghost use Rattle.ssz_chunk.specs.declared.TheConstants.{LEVELS};
ghost use Rattle.ssz_chunk.specs.Chunk.{CountsUp};
ghost use Rattle.ssz_arena.specs.Content.{KeepsNodes, unhashed, node_count};
ghost use Rattle.ssz_outside.specs.Content.{CanRead};
ghost use Rattle.ssz_script.specs.Literals.{HasShortLiteral};
ghost use Rattle.ssz_versions.specs.Compacted.{IsCompacted};
ghost use Rattle.ssz_machine.specs.Changes.{touch};
ghost use Rattle.ssz_machine.specs.Counts.{asks_root};
ghost use Rattle.ssz_engine.specs.Compacting.{compacted, is_compact};
ghost use Rattle.ssz_decisions.specs.Standing.{StandsForSome, StandsFor, HoldsNone};
ghost use Rattle.ssz_decisions.specs.Outside.{CountsReads, CountsWrites};
ghost use Rattle.ssz_decisions.specs.Roots.{HashesDue, LeavesHashed, HashesSome};
ghost use Rattle.ssz_engine.specs.Steps.{AsksStatement, DoesStep, StatementFindsFile, StatementForks, StatementUpgrades, Stops, TouchesWhere, WhereAccepted, file_read};
ghost use Rattle.ssz_decisions.specs.Content.{KeepsEngine};
ghost use Rattle.ssz_engine.specs.Tops.{Tops};

use super::deciding::decide;
use ssz_chunk::PairHash;
use ssz_decisions::{EngineFault, Outcome, Store, carry_out, compact};
use ssz_machine::Place;
use ssz_outside::Files;
use ssz_schema::Schema;
use ssz_script::Statement;
use ssz_versions::Writer;
use std::alloc::{AllocError, Global};
use std::marker::Model;

/// A schema, an arena of nodes, and what each writer holds under each name.
#[derive(Drop)]
pub struct Engine<H: PairHash> {
    pub(crate) store: Store<H>,
}

impl<H: PairHash> Model for Engine<H> {
    ghost use Rattle.std.specs.Coded.{codes};
    ghost use Rattle.ssz_schema.specs.Unfolding.{coded_types};
    ghost use Rattle.ssz_decisions.specs.Content.{EngineContent, entries_code};

    ghost Value = { EngineContent };

    ghost coded = { Prim.hlevel (codes, coded_types, entries_code) };

    ghost view = { λ a. a.store };
}

impl<H: PairHash> Engine<H> {
    /// An engine with these types, in which no writer has a version. It takes values from files, as
    /// encodings or as JSON texts, of at most `max` bytes, and prints and saves no longer ones.
    /// Hashes the zero trees. After want of memory the schema is given up.
    pub fn start(
        alloc: Global,
        schema: Schema,
        max: u32,
        hasher: &mut H,
    ) -> Result<Self, AllocError>
        ensures types { IfOk result (λ engine. engine.types ≡ schema) }
        ensures most { IfOk result (λ engine. engine.most ≡ max) }
        ensures entries { IfOk result (λ engine. engine.entries ≡ finite.empty) }
        ensures none { IfOk result (λ engine. (writer : ℕ) → HoldsNone engine.entries writer) }
        ensures stands { IfOk result (λ engine. StandsFor engine (λ writer. [])) }
        ensures base { IfOk result (λ engine. engine.base ≡ H.pairs hasher.new) }
        ensures unhashed { IfOk result (λ engine. unhashed engine.arena ≡ 0) }
        ensures err { OnErr result (hasher.new ≡ hasher.old) }
        ensures counts { OnOk result (CountsUp LEVELS (H.pairs hasher.old) (H.pairs hasher.new)) }
    {
        let store = Store::start(alloc, schema, max, hasher)?;
        Ok(Engine { store })
    }

    /// The engine stands for some versions of the machine: what the clauses of the other calls say
    /// of all for which it stands, they say of some.
    pub fn stands(&self)
        ensures { StandsForSome self.now }
    {
        self.store.stands();
    }

    /// Does a statement of this line of a script, and appends the line of the reply. All memory is
    /// taken before a node is made, and before a version or a file changes: after `Memory` or
    /// `Read` the versions, the files and `out` are as before, and after `Write` all but the file,
    /// which has what it had or a part of the new bytes. The nodes are then the same ones, too:
    /// `root` and `prove` may have hashed some.
    ///
    /// Eight parameters: who says which statement where, and files, hasher and reply, each lent by
    /// its owner.
    pub fn step<F: Files>(
        &mut self,
        writer: Writer,
        place: Place,
        line: u64,
        statement: &Statement,
        files: &mut F,
        hasher: &mut H,
        out: &mut Vec<u8>,
    ) -> Result<Outcome, EngineFault>
        requires short { HasShortLiteral statement.now }
        requires usable { F.usable files.old }
        ensures keeps { KeepsEngine self.old self.new }
        // Each node is there, with the same tree and no more to be hashed; but `compact` gives up
        // what no version reaches.
        ensures nodes { compacted statement.now result ≡ false
            → KeepsNodes self.old.arena self.new.arena }
        // Then each entry has its writer, name and type, and a node with the same tree and the same
        // root or none; nothing is hashed, and there are no more nodes than are reached, and the
        // zero trees.
        ensures compacted { compacted statement.now result ≡ true
            → IsCompacted self.old.entries self.new.entries self.old.arena self.new.arena }
        // A statement that was not done adds no node, and `compact` then leaves all as it was.
        ensures whole { OnErr result (node_count self.new.arena ≡ node_count self.old.arena) }
        ensures intact { is_compact statement.now ≡ true → OnErr result (self.new ≡ self.old) }
        ensures ok { IfOk result (DoesStep H.pair_of place writer.0 line statement.now self.old
            self.new (H.pairs hasher.old) (H.pairs hasher.new) (F.content files.old)
            (F.content files.new) out.old.items out.new.items) }
        ensures entries { compacted statement.now result ≡ false
            → IfOk result (λ outcome. TouchesWhere outcome (touch statement.now) writer.0
            self.old.entries self.new.entries) }
        // A fork holds what its source holds, the same node.
        ensures forks { IfOk result (λ outcome. WhereAccepted outcome
            (StatementForks statement.now writer.0 self.old.entries self.new.entries)) }
        // What an upgrade makes has no more to be hashed than what it was made of, and the charge.
        ensures upgrades { IfOk result (λ outcome. WhereAccepted outcome
            (StatementUpgrades statement.now writer.0 self.old self.new)) }
        // A root leaves nothing to be hashed of what it was asked of.
        ensures roots { IfOk result (λ outcome. LeavesHashed statement.now writer.0 self.new) }
        ensures err { OnErr result ((self.new.entries ≡ self.old.entries)
            × (out.new.items ≡ out.old.items)) }
        ensures stops { IfErr result (λ fault. Stops fault H.pair_of place writer.0 line
            (H.pairs hasher.old - self.old.base) statement.now self.old (F.content files.old)
            (F.content files.new)) }
        // Files that tell what they hold go on telling.
        ensures told { is_some (F.content files.new) ≡ is_some (F.content files.old) }
        ensures rises { H.pairs hasher.old ≤ H.pairs hasher.new }
        ensures hashed { H.pairs hasher.new ≤ H.pairs hasher.old + unhashed self.old.arena }
        // A root, or a proof, hashes only what was to be hashed for the version that it is of.
        ensures due { HashesDue statement.now writer.0 self.old (H.pairs hasher.old)
            (H.pairs hasher.new) }
        // What is edited below its top has a new pair there, and a root then hashes that at least.
        ensures tops { IfOk result (λ outcome. WhereAccepted outcome
            (Tops statement.now writer.0 self.old self.new)) }
        ensures some { OnOk result (HashesSome statement.now writer.0 self.old
            (H.pairs hasher.old) (H.pairs hasher.new)) }
        ensures refused { IfOk result (λ outcome. outcome ≡ Outcome.Refused
            → hasher.new ≡ hasher.old) }
        ensures still { asks_root (Some statement.now) ≡ false → hasher.new ≡ hasher.old }
        ensures fails { (name : List ℕ) → file_read statement.now ≡ Some name
            → F.readable files.old name → result ≢ Err EngineFault.Read }
        // Where reads fail of absent names alone, it is of one that is absent in the files; and of
        // such a one it does.
        ensures present { (name : List ℕ) → file_read statement.now ≡ Some name
            → CanRead (F.content files.old) name → result ≢ Err EngineFault.Read }
        ensures found { OnOk result (StatementFindsFile H.pair_of self.old writer.0 statement.now
            (F.content files.old)) }
        ensures asks { file_read statement.now ≡ None → result ≢ Err EngineFault.Read }
        ensures readable { (other : List ℕ) → F.readable files.old other
            → F.readable files.new other }
        ensures gets { CountsReads result (F.get_faults files.old) (F.get_faults files.new) }
        ensures puts { CountsWrites result (F.put_faults files.old) (F.put_faults files.new) }
        // The file that it reads is asked for once, with the most bytes of a value, and no other.
        ensures each_once { AsksStatement H.pair_of self.old writer.0 statement.now (is_err result)
            (F.asked files.old) (F.asked files.new) }
        ensures usable { OnOk result (F.usable files.new) }
    {
        if let Statement::Compact = statement {
            compact(&mut self.store, out)?;
            return Ok(Outcome::Accepted);
        }
        out.reserve(3)?;
        // So what its clauses say of all versions for which it stands is said of some.
        self.stands();
        let decision = decide(&mut self.store, writer, place, statement, files, hasher)?;
        carry_out(&mut self.store, writer, line, decision, files, out)
    }
}
