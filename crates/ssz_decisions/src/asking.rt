ghost use Rattle.std.specs.Prelude.{◌≡◌, ◌+◌, ◌-◌, ◌≤◌, IfOk};
ghost use Rattle.ssz_arena.specs.Content.{unhashed};
ghost use Rattle.ssz_machine.specs.Asking.{root_row, gindex, hashes};
ghost use Rattle.ssz_machine.specs.Changes.{nothing};
ghost use Rattle.ssz_script.specs.declared.statement.Statement.TheVariants.{Root};
ghost use Rattle.ssz_decisions.specs.Content.{Grows};
ghost use Rattle.ssz_decisions.specs.Decisions.{AnswersRow, AnswersOf};
ghost use Rattle.ssz_decisions.specs.Roots.{HashesFor, LeavesHashed, HashesSome};
ghost use Rattle.ssz_decisions.specs.Carried.{outcome_of};
ghost use Rattle.ssz_decisions.specs.declared.outcome.Outcome.TheVariants.{Refused};

use super::decision::Decision;
use super::store::Store;
use ssz_chunk::PairHash;
use ssz_line::Steps;
use ssz_machine::Place;
use ssz_script::{Identifier, Reply};
use ssz_versions::Writer;
use std::alloc::AllocError;

/// `root V`.
pub fn root<'a, H: PairHash>(
    store: &mut Store<H>,
    writer: Writer,
    v: &Identifier,
    hasher: &mut H,
) -> Decision<'a>
    ensures grows { Grows store.old store.new }
    ensures answers { AnswersRow H.pair_of (λ rules versions. root_row rules versions v.now) nothing
        writer.0 store.old store.new (H.pairs hasher.old) (H.pairs hasher.new) result }
    ensures rises { H.pairs hasher.old ≤ H.pairs hasher.new }
    ensures hashed { H.pairs hasher.new ≤ H.pairs hasher.old + unhashed store.old.arena }
    ensures due { HashesFor v.now writer.0 store.old (H.pairs hasher.old) (H.pairs hasher.new) }
    ensures some { HashesSome (Root v.now) writer.0 store.old (H.pairs hasher.old)
        (H.pairs hasher.new) }
    ensures refused { outcome_of result ≡ Refused → hasher.new ≡ hasher.old }
    ensures roots { LeavesHashed (Root v.now) writer.0 store.new }
{
    match store.versions.get(writer, v.as_name()) {
        None => Decision::Refused(Reply::NO_VERSION),
        Some((_, node)) => Decision::Said(Reply::Root(store.arena.root(node, hasher))),
    }
}

/// `gindex T P`. Fails for want of memory.
pub fn gindex<'a, H: PairHash>(
    store: &Store<H>,
    writer: Writer,
    t: &Identifier,
    path: &Steps,
) -> Result<Decision<'a>, AllocError>
    ensures { IfOk result (AnswersOf H.pair_of
        (λ rules versions. gindex rules versions t.now path.now) nothing writer.0 store.now) }
{
    let Some(id) = store.schema.find_name(t.as_name()) else {
        return Ok(Decision::Refused(Reply::NO_TYPE));
    };
    match path.gindex(store.alloc, &store.schema, id)? {
        None => Ok(Decision::Refused(Reply::BAD_PATH)),
        Some(index) => Ok(Decision::Said(Reply::Gindex(index.get()))),
    }
}

/// `hashes`.
pub fn hashes<'a, H: PairHash>(
    store: &Store<H>,
    writer: Writer,
    place: Place,
    hasher: &H,
) -> Decision<'a>
    ensures { AnswersOf H.pair_of
        (λ rules versions. hashes place (H.pairs hasher.now - store.now.base) versions) nothing
        writer.0 store.now result }
{
    match place {
        Place::Weave => Decision::Refused(Reply::NOT_HERE),
        Place::Run => Decision::Said(Reply::Hashes(hasher.count().saturating_sub(store.base))),
    }
}
