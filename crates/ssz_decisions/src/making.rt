ghost use Rattle.std.specs.Prelude.{◌≡◌, ◌<◌, ◌^◌, None, length, IfOk, IfErr, OnErr};
ghost use Rattle.ssz_arena.specs.Content.{node_count};
ghost use Rattle.ssz_schema.specs.Unfolding.{type_of};
ghost use Rattle.ssz_versions.specs.Content.{held_at};
ghost use Rattle.ssz_machine.specs.Making.{new, lit, fork, drop, list};
ghost use Rattle.ssz_machine.specs.Changes.{nothing, puts, takes};
ghost use Rattle.ssz_decisions.specs.Content.{Grows};
ghost use Rattle.ssz_decisions.specs.Decisions.{AnswersOf, AnswersAnew, MakesFork};
ghost use Rattle.ssz_decisions.specs.Loading.{loaded_row, IsFree, IsTaken};
ghost use Rattle.ssz_script.specs.declared.statement.Statement.TheVariants.{Fork};

use super::decision::Decision;
use super::store::Store;
use ssz_bytes::as_bytes;
use ssz_checking::check;
use ssz_chunk::PairHash;
use ssz_schema::TypeId;
use ssz_script::{Identifier, Reply};
use ssz_tree::{build_bytes, build_default};
use ssz_versions::{Room, Writer};
use std::alloc::AllocError;

/// The type of a name, for a version whose name is free; else the code of the refusal.
pub(crate) fn free_type<H: PairHash>(
    store: &Store<H>,
    writer: Writer,
    v: &Identifier,
    t: &Identifier,
) -> Result<TypeId, u8>
    ensures ok { IfOk result (IsFree store.now writer.0 v.now t.now) }
    ensures err { IfErr result (IsTaken store.now writer.0 v.now t.now) }
{
    let Some(id) = store.schema.find_name(t.as_name()) else {
        return Err(Reply::NO_TYPE);
    };
    match store.versions.get(writer, v.as_name()) {
        Some(_) => Err(Reply::NAME_TAKEN),
        None => Ok(id),
    }
}

/// `new V T`. Fails for want of memory.
pub fn new<'a, H: PairHash>(
    store: &mut Store<H>,
    writer: Writer,
    v: &'a Identifier,
    t: &Identifier,
) -> Result<Decision<'a>, AllocError>
    ensures grows { Grows store.old store.new }
    ensures answers { IfOk result (AnswersAnew H.pair_of
        (λ rules versions. new rules versions v.now t.now) (puts v.now) writer.0
        store.old store.new) }
    ensures whole { OnErr result (node_count store.new.arena ≡ node_count store.old.arena) }
{
    let id = match free_type(store, writer, v, t) {
        Ok(id) => id,
        Err(code) => return Ok(Decision::Refused(code)),
    };
    // Every type of a schema is legal, so that its default fits.
    let _legal = store.schema.ty(id);
    let room = Room::new(store.alloc)?;
    let node = build_default(&mut store.arena, &store.schema, id)?;
    Ok(Decision::Made(v, id, node, room))
}

/// `lit V T LIT`. Fails for want of memory.
pub fn lit<'a, H: PairHash>(
    store: &mut Store<H>,
    writer: Writer,
    v: &'a Identifier,
    t: &Identifier,
    literal: &[u8],
) -> Result<Decision<'a>, AllocError>
    requires { length literal.now < 2 ^ 32 }
    ensures grows { Grows store.old store.new }
    ensures answers { IfOk result (AnswersAnew H.pair_of
        (λ rules versions. lit rules versions v.now t.now literal.now) (puts v.now) writer.0
        store.old store.new) }
    ensures whole { OnErr result (node_count store.new.arena ≡ node_count store.old.arena) }
{
    let id = match free_type(store, writer, v, t) {
        Ok(id) => id,
        Err(code) => return Ok(Decision::Refused(code)),
    };
    bring(store, writer, v, id, literal)
}

/// A name that is free gets the value of a type that some bytes encode. Fails for want of memory.
pub(crate) fn bring<'a, H: PairHash>(
    store: &mut Store<H>,
    writer: Writer,
    v: &'a Identifier,
    id: TypeId,
    bytes: &[u8],
) -> Result<Decision<'a>, AllocError>
    requires known { id < length store.old.types.trees }
    requires short { length bytes.now < 2 ^ 32 }
    requires free { held_at store.old.entries writer.0 v.now ≡ None }
    ensures grows { Grows store.old store.new }
    ensures answers { IfOk result (AnswersAnew H.pair_of
        (λ rules versions. loaded_row versions v.now (type_of store.old.types id) bytes.now)
        (puts v.now) writer.0 store.old store.new) }
    ensures whole { OnErr result (node_count store.new.arena ≡ node_count store.old.arena) }
{
    let _bytes = as_bytes(bytes);
    match check(&store.schema, id, bytes) {
        Some(fault) => Ok(Decision::BadBytes(fault)),
        None => {
            // Every type of a schema is legal, so that the value of the bytes fits.
            let _legal = store.schema.ty(id);
            let room = Room::new(store.alloc)?;
            let node = build_bytes(&mut store.arena, &store.schema, id, bytes)?;
            Ok(Decision::Made(v, id, node, room))
        }
    }
}

/// `fork V W`. Fails for want of memory.
pub fn fork<'a, H: PairHash>(
    store: &Store<H>,
    writer: Writer,
    v: &Identifier,
    w: &'a Identifier,
) -> Result<Decision<'a>, AllocError>
    ensures answers { IfOk result (AnswersOf H.pair_of
        (λ rules versions. fork versions v.now w.now) (puts w.now) writer.0 store.now) }
    ensures forks { IfOk result (MakesFork (Fork v.now w.now) writer.0 store.now.entries) }
{
    let Some((id, node)) = store.versions.get(writer, v.as_name()) else {
        return Ok(Decision::Refused(Reply::NO_VERSION));
    };
    match store.versions.get(writer, w.as_name()) {
        Some(_) => Ok(Decision::Refused(Reply::NAME_TAKEN)),
        None => Ok(Decision::Made(w, id, node, Room::new(store.alloc)?)),
    }
}

/// `drop V`.
pub fn drop<'a, H: PairHash>(store: &Store<H>, writer: Writer, v: &'a Identifier) -> Decision<'a>
    ensures { AnswersOf H.pair_of (λ rules versions. drop versions v.now) (takes v.now) writer.0
        store.now result }
{
    match store.versions.get(writer, v.as_name()) {
        None => Decision::Refused(Reply::NO_VERSION),
        Some(_) => Decision::Dropped(v),
    }
}

/// `list`. Fails for want of memory.
pub fn list<'a, H: PairHash>(store: &Store<H>, writer: Writer) -> Result<Decision<'a>, AllocError>
    ensures { IfOk result (AnswersOf H.pair_of
        (λ rules versions. list versions) nothing writer.0
        store.now) }
{
    let names = store.versions.names(store.alloc, writer)?;
    Ok(Decision::Said(Reply::List(names)))
}
