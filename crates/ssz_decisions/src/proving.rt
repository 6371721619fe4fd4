//! `prove`.
ghost use Rattle.std.specs.Prelude.{◌≡◌, ◌≢◌, ◌+◌, ◌<◌, ◌≤◌, [], Ok, Contains, IfOk, IfErr, IfSome, OnErr, MatchOption, length, option_map};
ghost use Rattle.ssz_schema.specs.Unfolding.{type_of};
ghost use Rattle.ssz_arena.specs.Content.{IsNodeOf, node_count, todo, tree_of, unhashed};
ghost use Rattle.ssz_prove.specs.Taken.{TakesRoots};
ghost use Rattle.ssz_machine.specs.Rules.{need};
ghost use Rattle.ssz_machine.specs.Asking.{asked_index, asked_indices, prove};
ghost use Rattle.ssz_machine.specs.Changes.{nothing};
ghost use Rattle.ssz_decisions.specs.Content.{Grows};
ghost use Rattle.ssz_decisions.specs.Decisions.{AnswersRow};
ghost use Rattle.ssz_decisions.specs.Proving.{IsNowhere, Proves};
ghost use Rattle.ssz_decisions.specs.Roots.{HashesFor};
ghost use Rattle.ssz_decisions.specs.Carried.{outcome_of};
ghost use Rattle.ssz_decisions.specs.declared.outcome.Outcome.TheVariants.{Refused};

use super::decision::Decision;
use super::store::Store;
use ssz_arena::{Arena, NodeId};
use ssz_bytes::ByteRun;
use ssz_chunk::PairHash;
use ssz_gindex::Gindex;
use ssz_line::Index;
use ssz_proof::proof_text;
use ssz_prove::ProveFault;
use ssz_schema::{Schema, TypeId};
use ssz_script::{Identifier, Indices, Reply};
use ssz_versions::Writer;
use std::alloc::{AllocError, Global};

// The number of an index that is asked; None where its path does not fit the type.
fn number_asked(
    alloc: Global,
    schema: &Schema,
    id: TypeId,
    index: &Index,
) -> Result<Option<u128>, AllocError>
    requires { id < length schema.now.trees }
    ensures { IfOk result (λ number.
        need Reply.BAD_PATH number ≡ asked_index (type_of schema.now id) index.now) }
{
    match index {
        Index::Number(number) => Ok(Some(*number)),
        Index::Path(path) => match path.gindex(alloc, schema, id)? {
            Some(found) => Ok(Some(found.get())),
            None => Ok(None),
        },
    }
}

// The numbers of the indices, in their order; None where the path of one does not fit the type.
fn numbers_asked(
    alloc: Global,
    schema: &Schema,
    id: TypeId,
    indices: &[Index],
) -> Result<Option<Vec<u128>>, AllocError>
    requires { id < length schema.now.trees }
    ensures asked { IfOk result (λ asked.
        need Reply.BAD_PATH (option_map (λ list. list.items) asked)
        ≡ asked_indices (type_of schema.now id) indices.now) }
    ensures all { IfOk result (λ asked. IfSome asked (λ list.
        length list.items ≡ length indices.now)) }
{
    let mut numbers = Vec::with_capacity(alloc, indices.len())?;
    for index in indices {
        match number_asked(alloc, schema, id, index)? {
            Some(number) => numbers.push(number)?,
            None => return Ok(None),
        }
    }
    Ok(Some(numbers))
}

// The places of these numbers; None where one is 0, which is of no node.
fn places(alloc: Global, numbers: &[u128]) -> Result<Option<Vec<Gindex>>, AllocError>
    ensures { IfOk result (λ found. MatchOption found (Contains numbers.now 0)
        (λ list. list.items ≡ numbers.now)) }
{
    let mut list = Vec::with_capacity(alloc, numbers.len())?;
    for number in numbers {
        match Gindex::new(*number) {
            Some(index) => list.push(index)?,
            None => return Ok(None),
        }
    }
    Ok(Some(list))
}

// The places of the indices; else the code of the refusal. A path that does not fit comes before an
// index of 0, whatever their order.
fn places_asked(
    alloc: Global,
    schema: &Schema,
    id: TypeId,
    indices: &[Index],
) -> Result<Result<Vec<Gindex>, u8>, AllocError>
    requires { id < length schema.now.trees }
    ensures ok { IfOk result (λ found. IfOk found (λ list.
        Ok list.items ≡ asked_indices (type_of schema.now id) indices.now)) }
    ensures all { IfOk result (λ found. IfOk found (λ list.
        length list.items ≡ length indices.now)) }
    ensures err { IfOk result (λ found. IfErr found
        (IsNowhere (type_of schema.now id) indices.now)) }
{
    let Some(numbers) = numbers_asked(alloc, schema, id, indices)? else {
        return Ok(Err(Reply::BAD_PATH));
    };
    match places(alloc, numbers.as_slice())? {
        Some(list) => Ok(Ok(list)),
        None => Ok(Err(Reply::NO_NODE)),
    }
}

// What is said of these places of a node's tree. Fails for want of memory.
fn prove_places<'a, H: PairHash>(
    arena: &mut Arena<H>,
    node: NodeId,
    asked: &[Gindex],
    hasher: &mut H,
) -> Result<Decision<'a>, AllocError>
    requires some { asked.now ≢ [] }
    requires node { IsNodeOf arena.old node }
    ensures proves { IfOk result (Proves H.pair_of (tree_of arena.old node) asked.now) }
    ensures takes { TakesRoots arena.old arena.new (H.pairs hasher.old) (H.pairs hasher.new) }
    ensures due { H.pairs hasher.new ≤ H.pairs hasher.old + todo arena.old node }
    ensures refused { IfOk result (λ made. outcome_of made ≡ Refused
        → hasher.new ≡ hasher.old) }
{
    match ssz_prove::prove(arena, node, asked, hasher) {
        Ok(proof) => {
            let text = proof_text(arena.allocator(), &proof)?;
            Ok(Decision::Said(Reply::Proof(ByteRun::from_bytes(text))))
        }
        Err(ProveFault::NoNode(_)) => Ok(Decision::Refused(Reply::NO_NODE)),
        Err(ProveFault::Nested(_, _)) => Ok(Decision::Refused(Reply::NESTED)),
        Err(ProveFault::Memory) => Err(AllocError),
    }
}

/// `prove V I ..`. Fails for want of memory.
pub fn prove<'a, H: PairHash>(
    store: &mut Store<H>,
    writer: Writer,
    v: &Identifier,
    indices: &Indices,
    hasher: &mut H,
) -> Result<Decision<'a>, AllocError>
    ensures grows { Grows store.old store.new }
    ensures answers { IfOk result (AnswersRow H.pair_of
        (λ rules versions. prove rules versions v.now indices.now) nothing writer.0
        store.old store.new (H.pairs hasher.old) (H.pairs hasher.new)) }
    ensures whole { OnErr result (node_count store.new.arena ≡ node_count store.old.arena) }
    ensures rises { H.pairs hasher.old ≤ H.pairs hasher.new }
    ensures hashed { H.pairs hasher.new ≤ H.pairs hasher.old + unhashed store.old.arena }
    ensures due { HashesFor v.now writer.0 store.old (H.pairs hasher.old) (H.pairs hasher.new) }
    ensures refused { IfOk result (λ made. outcome_of made ≡ Refused
        → hasher.new ≡ hasher.old) }
{
    let Some(held) = store.versions.get(writer, v.as_name()) else {
        return Ok(Decision::Refused(Reply::NO_VERSION));
    };
    match places_asked(store.alloc, &store.schema, held.0, indices.as_slice())? {
        Ok(asked) => prove_places(&mut store.arena, held.1, asked.as_slice(), hasher),
        Err(code) => Ok(Decision::Refused(code)),
    }
}
