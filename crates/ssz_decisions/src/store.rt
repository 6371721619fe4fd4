//! What statements are decided over, and carried out on.
ghost use Rattle.std.specs.Prelude.{◌≡◌, ℕ, [], IfOk, OnOk, OnErr};
ghost use Rattle.std.specs.FinMap as finite;
ghost use Rattle.ssz_chunk.specs.declared.TheConstants.{LEVELS};
ghost use Rattle.ssz_chunk.specs.Chunk.{CountsUp};
ghost use Rattle.ssz_arena.specs.Content.{unhashed};
ghost use Rattle.ssz_decisions.specs.Standing.{HoldsNone, StandsFor, StandsForSome};

use ssz_arena::Arena;
use ssz_chunk::PairHash;
use ssz_schema::Schema;
use ssz_versions::Versions;
use std::alloc::{AllocError, Global};
use std::marker::Model;

/// A schema, an arena of nodes, and what each writer holds under each name: a type and a node that
/// stand for a version of the machine.
#[derive(Drop)]
pub struct Store<H: PairHash> {
    pub alloc: Global,
    pub schema: Schema,
    /// The most bytes of a value's encoding or JSON text that are taken, shown or saved.
    pub max: u32,
    pub arena: Arena<H>,
    pub versions: Versions,
    /// The hasher's count when the zero trees had been hashed.
    pub base: u64,
}

impl<H: PairHash> Model for Store<H> {
    ghost use Rattle.std.specs.Coded.{codes};
    ghost use Rattle.ssz_schema.specs.Unfolding.{coded_types};
    ghost use Rattle.ssz_decisions.specs.Content.{EngineContent, entries_code};
    ghost use Rattle.ssz_decisions.specs.Standing.{AreVersions};

    ghost Value = { EngineContent };

    ghost coded = { Prim.hlevel (codes, coded_types, entries_code) };

    ghost view = { λ a. record {
      types = a.schema;
      most = a.max;
      arena = a.arena;
      entries = a.versions.entries;
      base = a.base;
    } };

    ghost invariant = { λ a. AreVersions a.schema a.arena a.versions.entries };
}

impl<H: PairHash> Store<H> {
    /// A store of these types, in which no writer has a version. Hashes the zero trees. After want
    /// of memory the schema is given up.
    pub fn start(
        alloc: Global,
        schema: Schema,
        max: u32,
        hasher: &mut H,
    ) -> Result<Self, AllocError>
        ensures types { IfOk result (λ store. store.types ≡ schema) }
        ensures most { IfOk result (λ store. store.most ≡ max) }
        ensures entries { IfOk result (λ store. store.entries ≡ finite.empty) }
        ensures none { IfOk result (λ store. (writer : ℕ) → HoldsNone store.entries writer) }
        ensures stands { IfOk result (λ store. StandsFor store (λ writer. [])) }
        ensures base { IfOk result (λ store. store.base ≡ H.pairs hasher.new) }
        ensures unhashed { IfOk result (λ store. unhashed store.arena ≡ 0) }
        ensures err { OnErr result (hasher.new ≡ hasher.old) }
        ensures counts { OnOk result (CountsUp LEVELS (H.pairs hasher.old) (H.pairs hasher.new)) }
    {
        let versions = Versions::empty(alloc)?;
        let arena = Arena::start(alloc, hasher)?;
        Ok(Store {
            alloc,
            schema,
            max,
            arena,
            versions,
            base: hasher.count(),
        })
    }

    /// The store stands for some versions of the machine: what the clauses of other calls say of
    /// all for which it stands, they say of some.
    pub fn stands(&self)
        ensures { StandsForSome self.now }
    {
        let _ = &self.versions;
    }
}
