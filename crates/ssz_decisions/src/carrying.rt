ghost use Rattle.std.specs.Prelude.{◌≡◌, ◌+◌, ◌++◌, ◌≤◌, ℕ, List, None, IsSome, is_some, IfOk, IfErr, OnOk, OnErr, vec_len, vec_capacity};
ghost use Rattle.ssz_script.specs.Texts.{reply_line};
ghost use Rattle.ssz_versions.specs.Content.{held_at, with_held, without_held};
ghost use Rattle.ssz_decisions.specs.Content.{SameNodes};
ghost use Rattle.ssz_decisions.specs.Standing.{IsSomeVersion};
ghost use Rattle.ssz_decisions.specs.Decisions.{CanDo, CanEdit};
ghost use Rattle.ssz_decisions.specs.Carried.{CanLack, Edits, Fails, IsAnswered, IsCarriedOut};
ghost use Rattle.ssz_decisions.specs.Outside.{CountsWrites, PutsFile};

use super::decision::Decision;
use super::fault::EngineFault;
use super::outcome::Outcome;
use super::store::Store;
use ssz_arena::NodeId;
use ssz_chunk::PairHash;
use ssz_outside::{Files, PutFault};
use ssz_schema::TypeId;
use ssz_script::{FileName, Identifier, Reply, put_reply};
use ssz_versions::{Room, Writer};
use std::alloc::AllocError;

/// Appends `ok`, for which there is room.
pub(crate) fn say_done(out: &mut Vec<u8>)
    requires { vec_len out.old + 3 ≤ vec_capacity out.old }
    ensures { out.new.items ≡ out.old.items ++ reply_line Reply.Done }
{
    match out.extend_from_slice(b"ok\n") {
        Ok(()) => {}
        Err(_) => unreachable!(),
    }
}

// Appends `ok`, for which there is room, to a statement that was done.
fn done(out: &mut Vec<u8>) -> Outcome
    requires { vec_len out.old + 3 ≤ vec_capacity out.old }
    ensures text { out.new.items ≡ out.old.items ++ reply_line Reply.Done }
    ensures outcome { result ≡ Outcome.Accepted }
{
    say_done(out);
    Outcome::Accepted
}

/// Appends the line of a reply, whose statement comes to this outcome. Fails for want of memory.
pub fn say(reply: Reply, outcome: Outcome, out: &mut Vec<u8>) -> Result<Outcome, AllocError>
    ensures ok { IfOk result (λ said. said ≡ outcome) }
    ensures text { OnOk result (out.new.items ≡ out.old.items ++ reply_line reply) }
    ensures err { OnErr result (out.new.items ≡ out.old.items) }
{
    put_reply(reply, out)?;
    Ok(outcome)
}

/// A name that is free gets a version.
pub(crate) fn make<H: PairHash>(
    store: &mut Store<H>,
    writer: Writer,
    name: &Identifier,
    held: (TypeId, NodeId),
    room: Room,
)
    requires { IsSomeVersion store.old.types store.old.arena held }
    ensures nodes { SameNodes store.old store.new }
    ensures entries { store.new.entries ≡ with_held store.old.entries writer.0 name.now held }
{
    store
        .versions
        .put(room, writer, name.as_name(), held.0, held.1);
}

/// A version gets another node.
pub(crate) fn edit<H: PairHash>(
    store: &mut Store<H>,
    writer: Writer,
    name: &Identifier,
    node: NodeId,
)
    requires { CanEdit store.old writer.0 name.now node }
    ensures nodes { SameNodes store.old store.new }
    ensures entries { Edits store.old.entries store.new.entries writer.0 name.now node }
{
    match store.versions.edit(writer, name.as_name()) {
        Some(held) => *held = node,
        None => unreachable!(),
    }
}

/// A name is given up.
pub(crate) fn give_up<H: PairHash>(store: &mut Store<H>, writer: Writer, name: &Identifier)
    requires { IsSome (held_at store.old.entries writer.0 name.now) }
    ensures nodes { SameNodes store.old store.new }
    ensures entries { store.new.entries
        ≡ without_held store.old.entries writer.0 name.now }
{
    match store.versions.drop_version(writer, name.as_name()) {
        Ok(()) => {}
        Err(_) => unreachable!(),
    }
}

/// A file gets these bytes.
pub(crate) fn put_file<F: Files>(
    files: &mut F,
    name: &FileName,
    bytes: &[u8],
) -> Result<(), EngineFault>
    requires usable { F.usable files.old }
    ensures content { PutsFile result name.now bytes.now (F.content files.old)
        (F.content files.new) }
    ensures told { is_some (F.content files.new) ≡ is_some (F.content files.old) }
    ensures readable { (other : List ℕ) → F.readable files.old other → F.readable files.new other }
    ensures gets { F.get_faults files.new ≡ F.get_faults files.old }
    ensures puts { CountsWrites result (F.put_faults files.old) (F.put_faults files.new) }
    ensures asks { F.asked files.new ≡ F.asked files.old }
    ensures usable { OnOk result (F.usable files.new) }
{
    match files.put(name.as_str(), bytes) {
        Ok(()) => Ok(()),
        Err(PutFault::Failed) => Err(EngineFault::Write),
        Err(PutFault::Memory) => Err(EngineFault::Memory),
    }
}

/// Carries out a decision, and answers the reply.
pub fn carry<F: Files, H: PairHash>(
    store: &mut Store<H>,
    writer: Writer,
    line: u64,
    decision: Decision<'_>,
    files: &mut F,
) -> Result<Reply, EngineFault>
    requires can { CanDo store.old writer.0 decision }
    requires usable { F.usable files.old }
    ensures nodes { SameNodes store.old store.new }
    ensures ok { IfOk result (IsAnswered decision.entry writer.0 line store.old.entries
        store.new.entries (F.content files.old) (F.content files.new)) }
    ensures err { OnErr result (store.new.entries ≡ store.old.entries) }
    ensures fails { IfErr result (λ fault. Fails fault decision.entry (F.content files.old)
        (F.content files.new)) }
    ensures sure { OnErr result (CanLack decision.entry) }
    ensures told { is_some (F.content files.new) ≡ is_some (F.content files.old) }
    ensures readable { (other : List ℕ) → F.readable files.old other → F.readable files.new other }
    ensures gets { F.get_faults files.new ≡ F.get_faults files.old }
    ensures puts { CountsWrites result (F.put_faults files.old) (F.put_faults files.new) }
    ensures asks { F.asked files.new ≡ F.asked files.old }
    ensures usable { OnOk result (F.usable files.new) }
{
    match decision {
        Decision::Refused(code) => {
            let fault = None;
            Ok(Reply::Refused { line, code, fault })
        }
        Decision::BadBytes(found) => {
            let (code, fault) = (Reply::BAD_LITERAL, Some(found));
            Ok(Reply::Refused { line, code, fault })
        }
        Decision::BadJson(fault) => {
            let (code, number) = (fault.code, fault.number);
            Ok(Reply::BadJson { line, code, number })
        }
        Decision::Said(reply) => Ok(reply),
        Decision::Made(name, id, node, room) => {
            make(store, writer, name, (id, node), room);
            Ok(Reply::Done)
        }
        Decision::Edited(name, node) => {
            edit(store, writer, name, node);
            Ok(Reply::Done)
        }
        Decision::Dropped(name) => {
            give_up(store, writer, name);
            Ok(Reply::Done)
        }
        Decision::Saved(name, bytes) => {
            put_file(files, name, bytes.as_slice())?;
            Ok(Reply::Done)
        }
    }
}

/// Carries out a decision, and appends the line of the reply. For what changes a version all memory
/// was taken before: there is room for `ok`.
pub fn carry_out<F: Files, H: PairHash>(
    store: &mut Store<H>,
    writer: Writer,
    line: u64,
    decision: Decision<'_>,
    files: &mut F,
    out: &mut Vec<u8>,
) -> Result<Outcome, EngineFault>
    requires can { CanDo store.old writer.0 decision }
    requires room { vec_len out.old + 3 ≤ vec_capacity out.old }
    requires usable { F.usable files.old }
    ensures nodes { SameNodes store.old store.new }
    ensures ok { IfOk result (λ outcome. IsCarriedOut decision.entry writer.0 line
        store.old.entries store.new.entries outcome (F.content files.old) (F.content files.new)
        out.old.items out.new.items) }
    ensures err { OnErr result ((store.new.entries ≡ store.old.entries)
        × (out.new.items ≡ out.old.items)) }
    ensures fails { IfErr result (λ fault. Fails fault decision.entry (F.content files.old)
        (F.content files.new)) }
    ensures sure { OnErr result (CanLack decision.entry) }
    ensures told { is_some (F.content files.new) ≡ is_some (F.content files.old) }
    ensures readable { (other : List ℕ) → F.readable files.old other → F.readable files.new other }
    ensures gets { F.get_faults files.new ≡ F.get_faults files.old }
    ensures puts { CountsWrites result (F.put_faults files.old) (F.put_faults files.new) }
    ensures asks { F.asked files.new ≡ F.asked files.old }
    ensures usable { OnOk result (F.usable files.new) }
{
    match decision {
        Decision::Refused(code) => {
            let fault = None;
            Ok(say(Reply::Refused { line, code, fault }, Outcome::Refused, out)?)
        }
        Decision::BadBytes(fault) => {
            let (code, fault) = (Reply::BAD_LITERAL, Some(fault));
            Ok(say(Reply::Refused { line, code, fault }, Outcome::Refused, out)?)
        }
        Decision::BadJson(fault) => {
            let (code, number) = (fault.code, fault.number);
            Ok(say(Reply::BadJson { line, code, number }, Outcome::Refused, out)?)
        }
        Decision::Said(reply) => Ok(say(reply, Outcome::Accepted, out)?),
        Decision::Made(name, id, node, room) => {
            make(store, writer, name, (id, node), room);
            Ok(done(out))
        }
        Decision::Edited(name, node) => {
            edit(store, writer, name, node);
            Ok(done(out))
        }
        Decision::Dropped(name) => {
            give_up(store, writer, name);
            Ok(done(out))
        }
        Decision::Saved(name, bytes) => {
            put_file(files, name, bytes.as_slice())?;
            Ok(done(out))
        }
    }
}
