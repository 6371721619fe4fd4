//! Statements that make a version of the value that a file has.
ghost use Rattle.std.specs.Prelude.{◌≡◌, ◌≢◌, ◌<◌, ◌^◌, ℕ, List, None, Err, length, is_err, IfOk, OnOk, OnErr};
ghost use Rattle.ssz_outside.specs.Content.{CanRead};
ghost use Rattle.ssz_schema.specs.Unfolding.{type_of};
ghost use Rattle.ssz_arena.specs.Content.{node_count};
ghost use Rattle.ssz_versions.specs.Content.{held_at};
ghost use Rattle.ssz_machine.specs.Changes.{puts};
ghost use Rattle.ssz_decisions.specs.Content.{Grows};
ghost use Rattle.ssz_decisions.specs.Decisions.{AnswersAnew};
ghost use Rattle.ssz_decisions.specs.Loading.{AsksLoad, CanLoad, FindsFile, LoadsWith, brought_as, load_row};
ghost use Rattle.ssz_decisions.specs.Outside.{CountsReads};

use super::decision::Decision;
use super::fault::EngineFault;
use super::load_form::Form;
use super::making::{bring, free_type};
use super::store::Store;
use ssz_chunk::PairHash;
use ssz_outside::{Files, GetFault, Got};
use ssz_schema::TypeId;
use ssz_script::{FileName, Identifier, Reply};
use ssz_tree::build;
use ssz_value_json::{JsonRead, read_json};
use ssz_versions::{Room, Writer};
use std::alloc::AllocError;

// A name that is free gets the value of a type whose JSON text some bytes are. Fails for want of
// memory.
fn bring_json<'a, H: PairHash>(
    store: &mut Store<H>,
    v: &'a Identifier,
    id: TypeId,
    text: &[u8],
) -> Result<Decision<'a>, AllocError>
    requires { id < length store.old.types.trees }
    ensures grows { Grows store.old store.new }
    ensures answers { (writer : ℕ) → held_at store.old.entries writer v.now ≡ None
        → IfOk result (AnswersAnew H.pair_of
        (λ rules versions. brought_as Form.Json versions v.now (type_of store.old.types id)
        text.now)
        (puts v.now) writer store.old store.new) }
    ensures whole { OnErr result (node_count store.new.arena ≡ node_count store.old.arena) }
{
    let value = match read_json(store.alloc, &store.schema, id, text) {
        Ok(value) => value,
        Err(JsonRead::Bad(fault)) => return Ok(Decision::BadJson(fault)),
        Err(JsonRead::Memory) => return Err(AllocError),
    };
    // Every type of a schema is legal, so that no other value has this text.
    let _legal = store.schema.ty(id);
    let room = Room::new(store.alloc)?;
    let node = build(&mut store.arena, &store.schema, id, &value)?;
    Ok(Decision::Made(v, id, node, room))
}

// A name that is free gets the value that some bytes have in this form. Fails for want of memory.
fn bring_as<'a, H: PairHash>(
    store: &mut Store<H>,
    writer: Writer,
    v: &'a Identifier,
    id: TypeId,
    form: Form,
    bytes: &[u8],
) -> Result<Decision<'a>, AllocError>
    requires known { id < length store.old.types.trees }
    requires short { length bytes.now < 2 ^ 32 }
    requires free { held_at store.old.entries writer.0 v.now ≡ None }
    ensures grows { Grows store.old store.new }
    ensures answers { IfOk result (AnswersAnew H.pair_of
        (λ rules versions. brought_as form versions v.now (type_of store.old.types id) bytes.now)
        (puts v.now) writer.0 store.old store.new) }
    ensures whole { OnErr result (node_count store.new.arena ≡ node_count store.old.arena) }
{
    match form {
        Form::Encoding => bring(store, writer, v, id, bytes),
        Form::Json => bring_json(store, v, id, bytes),
    }
}

/// `load V T FILE`, or `loadjson V T FILE`.
/// Seven parameters: the words of the statement, and what is lent to it.
pub fn load<'a, F: Files, H: PairHash>(
    store: &mut Store<H>,
    writer: Writer,
    v: &'a Identifier,
    t: &Identifier,
    file: &FileName,
    form: Form,
    files: &mut F,
) -> Result<Decision<'a>, EngineFault>
    requires usable { F.usable files.old }
    ensures grows { Grows store.old store.new }
    ensures answers { IfOk result (LoadsWith H.pair_of (F.content files.old) file.now
        (λ bytes rules versions. load_row form rules versions v.now t.now bytes) (puts v.now)
        writer.0 store.old store.new) }
    ensures asked { result ≡ Err EngineFault.Read
        → CanLoad H.pair_of store.old writer.0 v.now t.now }
    ensures no_write { result ≢ Err EngineFault.Write }
    ensures whole { OnErr result (node_count store.new.arena ≡ node_count store.old.arena) }
    ensures content { F.content files.new ≡ F.content files.old }
    ensures fails { F.readable files.old file.now → result ≢ Err EngineFault.Read }
    ensures present { CanRead (F.content files.old) file.now → result ≢ Err EngineFault.Read }
    ensures found { OnOk result (FindsFile H.pair_of store.old writer.0 v.now t.now file.now
        (F.content files.old)) }
    ensures readable { (other : List ℕ) → F.readable files.old other → F.readable files.new other }
    ensures gets { CountsReads result (F.get_faults files.old) (F.get_faults files.new) }
    ensures puts { F.put_faults files.new ≡ F.put_faults files.old }
    ensures asks { AsksLoad H.pair_of store.old writer.0 v.now t.now file.now (is_err result)
        (F.asked files.old) (F.asked files.new) }
    ensures usable { OnOk result (F.usable files.new) }
{
    let id = match free_type(store, writer, v, t) {
        Ok(id) => id,
        Err(code) => return Ok(Decision::Refused(code)),
    };
    let mut bytes = Vec::new(store.alloc);
    match files.get(file.as_str(), &mut bytes, u64::from(store.max)) {
        Ok(Got::Whole) => Ok(bring_as(store, writer, v, id, form, bytes.as_slice())?),
        Ok(Got::TooLong) => Ok(Decision::Refused(Reply::TOO_LONG)),
        Err(GetFault::Failed) => Err(EngineFault::Read),
        Err(GetFault::Memory) => Err(EngineFault::Memory),
    }
}
