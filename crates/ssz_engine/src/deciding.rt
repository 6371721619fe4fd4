ghost use Rattle.std.specs.Prelude.{◌≡◌, ◌≢◌, ◌+◌, ◌-◌, ◌≤◌, ℕ, List, Some, None, Err, false, is_err, IfOk, OnOk, OnErr};
ghost use Rattle.ssz_arena.specs.Content.{unhashed, node_count};
ghost use Rattle.ssz_outside.specs.Content.{CanRead};
ghost use Rattle.ssz_script.specs.Literals.{HasShortLiteral};
ghost use Rattle.ssz_machine.specs.Counts.{asks_root};
ghost use Rattle.ssz_engine.specs.Compacting.{is_compact};
ghost use Rattle.ssz_decisions.specs.Content.{Grows};
ghost use Rattle.ssz_decisions.specs.Outside.{CountsReads};
ghost use Rattle.ssz_decisions.specs.Roots.{HashesDue, LeavesHashed, HashesSome};
ghost use Rattle.ssz_engine.specs.Steps.{AsksStatement, CanAsk, Decides, DecidesAlone, StatementFindsFile, MakesUpgrade, file_read};
ghost use Rattle.ssz_decisions.specs.Decisions.{MakesFork};
ghost use Rattle.ssz_decisions.specs.Carried.{outcome_of};
ghost use Rattle.ssz_engine.specs.Tops.{MakesTop};
ghost use Rattle.ssz_decisions.specs.declared.outcome.Outcome.TheVariants.{Refused};

use super::editing::{append, choose, pop, set};
use super::upgrading::upgrade;
use ssz_chunk::PairHash;
use ssz_decisions::{
    Decision, EngineFault, Form, Store, bytes, drop, fork, gindex, hashes, json, len, list, lit,
    load, new, prove, root, save,
};
use ssz_machine::Place;
use ssz_outside::Files;
use ssz_script::Statement;
use ssz_versions::Writer;
use std::alloc::AllocError;

/// Finds what a statement other than `compact` comes to. Nothing is changed but that the arena may
/// have more nodes and roots. A new statement joins here.
pub(crate) fn decide<'a, F: Files, H: PairHash>(
    store: &mut Store<H>,
    writer: Writer,
    place: Place,
    statement: &'a Statement,
    files: &mut F,
    hasher: &mut H,
) -> Result<Decision<'a>, EngineFault>
    requires short { HasShortLiteral statement.now }
    requires other { is_compact statement.now ≡ false }
    requires usable { F.usable files.old }
    ensures grows { Grows store.old store.new }
    ensures decides { IfOk result (Decides H.pair_of place statement.now writer.0
        (H.pairs hasher.old - store.old.base) (F.content files.old) store.old store.new
        (H.pairs hasher.old) (H.pairs hasher.new)) }
    ensures asked { result ≡ Err EngineFault.Read
        → CanAsk H.pair_of store.old writer.0 statement.now }
    ensures no_write { result ≢ Err EngineFault.Write }
    ensures whole { OnErr result (node_count store.new.arena ≡ node_count store.old.arena) }
    ensures rises { H.pairs hasher.old ≤ H.pairs hasher.new }
    ensures hashed { H.pairs hasher.new ≤ H.pairs hasher.old + unhashed store.old.arena }
    ensures due { HashesDue statement.now writer.0 store.old (H.pairs hasher.old)
        (H.pairs hasher.new) }
    ensures tops { IfOk result (MakesTop statement.now writer.0 store.old store.new) }
    ensures some { OnOk result (HashesSome statement.now writer.0 store.old
        (H.pairs hasher.old) (H.pairs hasher.new)) }
    ensures refused { IfOk result (λ made. outcome_of made ≡ Refused → hasher.new ≡ hasher.old) }
    ensures still { asks_root (Some statement.now) ≡ false → hasher.new ≡ hasher.old }
    ensures forks { IfOk result (MakesFork statement.now writer.0 store.old.entries) }
    ensures upgrades { IfOk result (MakesUpgrade statement.now writer.0 store.old store.new) }
    ensures roots { IfOk result (λ made. LeavesHashed statement.now writer.0 store.new) }
    ensures content { F.content files.new ≡ F.content files.old }
    ensures fails { (name : List ℕ) → file_read statement.now ≡ Some name
        → F.readable files.old name → result ≢ Err EngineFault.Read }
    ensures present { (name : List ℕ) → file_read statement.now ≡ Some name
        → CanRead (F.content files.old) name → result ≢ Err EngineFault.Read }
    ensures found { OnOk result (StatementFindsFile H.pair_of store.old writer.0 statement.now
        (F.content files.old)) }
    ensures asks { file_read statement.now ≡ None → result ≢ Err EngineFault.Read }
    ensures readable { (other : List ℕ) → F.readable files.old other → F.readable files.new other }
    ensures gets { CountsReads result (F.get_faults files.old) (F.get_faults files.new) }
    ensures puts { F.put_faults files.new ≡ F.put_faults files.old }
    ensures each_once { AsksStatement H.pair_of store.old writer.0 statement.now (is_err result)
        (F.asked files.old) (F.asked files.new) }
    ensures usable { OnOk result (F.usable files.new) }
{
    match statement {
        Statement::Load(v, t, file) => { load(store, writer, v, t, file, Form::Encoding, files) }
        Statement::LoadJson(v, t, file) => load(store, writer, v, t, file, Form::Json, files),
        _ => Ok(decide_alone(store, writer, place, statement, hasher)?),
    }
}

/// The same of a statement that reads no file. Fails for want of memory.
fn decide_alone<'a, H: PairHash>(
    store: &mut Store<H>,
    writer: Writer,
    place: Place,
    statement: &'a Statement,
    hasher: &mut H,
) -> Result<Decision<'a>, AllocError>
    requires short { HasShortLiteral statement.now }
    requires alone { file_read statement.now ≡ None }
    requires other { is_compact statement.now ≡ false }
    ensures grows { Grows store.old store.new }
    ensures decides { IfOk result (DecidesAlone H.pair_of place statement.now writer.0
        (H.pairs hasher.old - store.old.base) store.old store.new
        (H.pairs hasher.old) (H.pairs hasher.new)) }
    ensures whole { OnErr result (node_count store.new.arena ≡ node_count store.old.arena) }
    ensures rises { H.pairs hasher.old ≤ H.pairs hasher.new }
    ensures hashed { H.pairs hasher.new ≤ H.pairs hasher.old + unhashed store.old.arena }
    ensures due { HashesDue statement.now writer.0 store.old (H.pairs hasher.old)
        (H.pairs hasher.new) }
    ensures tops { IfOk result (MakesTop statement.now writer.0 store.old store.new) }
    ensures some { OnOk result (HashesSome statement.now writer.0 store.old
        (H.pairs hasher.old) (H.pairs hasher.new)) }
    ensures refused { IfOk result (λ made. outcome_of made ≡ Refused → hasher.new ≡ hasher.old) }
    ensures still { asks_root (Some statement.now) ≡ false → hasher.new ≡ hasher.old }
    ensures forks { IfOk result (MakesFork statement.now writer.0 store.old.entries) }
    ensures upgrades { IfOk result (MakesUpgrade statement.now writer.0 store.old store.new) }
    ensures roots { IfOk result (λ made. LeavesHashed statement.now writer.0 store.new) }
{
    match statement {
        Statement::New(v, t) => new(store, writer, v, t),
        Statement::Lit(v, t, literal) => lit(store, writer, v, t, literal.as_slice()),
        Statement::Fork(v, w) => fork(store, writer, v, w),
        Statement::Drop(v) => Ok(drop(store, writer, v)),
        Statement::List => list(store, writer),
        Statement::Root(v) => Ok(root(store, writer, v, hasher)),
        Statement::Gindex(t, path) => gindex(store, writer, t, path),
        Statement::Hashes => Ok(hashes(store, writer, place, hasher)),
        Statement::Save(v, file) => save(store, writer, place, v, file),
        Statement::Bytes(v, path) => bytes(store, writer, v, path),
        Statement::Json(v, path) => json(store, writer, v, path),
        Statement::Len(v, path) => len(store, writer, v, path),
        Statement::Set(v, path, literal) => { set(store, writer, v, path, literal.as_slice()) }
        Statement::Append(v, path, literal) => {
            append(store, writer, v, path, literal.as_slice())
        }
        Statement::Pop(v, path) => pop(store, writer, v, path),
        Statement::Choose(v, path, selector, literal) => {
            choose(store, writer, v, path, *selector, literal)
        }
        Statement::Prove(v, indices) => prove(store, writer, v, indices, hasher),
        Statement::Upgrade(v, w, t) => upgrade(store, writer, v, w, t),
        Statement::Load(_, _, _) | Statement::LoadJson(_, _, _) | Statement::Compact => {
            unreachable!()
        }
    }
}
