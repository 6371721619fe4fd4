//! Statements that show a part as a text: its encoding, or its JSON.
ghost use Rattle.std.specs.Prelude.{◌≡◌, ◌<◌, Ok, Err, length, IfOk, IfErr};
ghost use Rattle.ssz_schema.specs.Unfolding.{type_of};
ghost use Rattle.ssz_value.specs.Values.{SszValue, Fits};
ghost use Rattle.ssz_value.specs.Encoding.{serialize};
ghost use Rattle.ssz_json_text.specs.Text.{json as json_text};
ghost use Rattle.ssz_value.specs.Written.{Appends};
ghost use Rattle.ssz_arena.specs.Content.{IsNodeOf, tree_of};
ghost use Rattle.ssz_places.specs.Spots.{HasPart, LiesWithin};
ghost use Rattle.ssz_walk.specs.Found.{spot_of};
ghost use Rattle.ssz_machine.specs.Rules.{coded};
ghost use Rattle.ssz_machine.specs.Asking.{bytes, json_row, save};
ghost use Rattle.ssz_machine.specs.Changes.{nothing};
ghost use Rattle.ssz_decisions.specs.Decisions.{AnswersOf};
ghost use Rattle.ssz_decisions.specs.Shown.{PartIsShown};

use super::decision::Decision;
use super::parts::{part_value, place_of};
use super::store::Store;
use ssz_arena::Arena;
use ssz_bytes::ByteRun;
use ssz_chunk::PairHash;
use ssz_line::Steps;
use ssz_machine::Place;
use ssz_nodes::{bit_of, chunk_of};
use ssz_schema::Schema;
use ssz_script::{FileName, Identifier, Reply};
use ssz_value_json::{JsonWrite, write_json};
use ssz_versions::Writer;
use ssz_walk::{Place as PartPlace, Spot};
use ssz_writing::{EncodeFault, write_encoding};
use std::alloc::AllocError;

// Appends the bytes, unless they are more than max.
fn append_short(bytes: &[u8], max: u32, out: &mut Vec<u8>) -> Result<(), EncodeFault>
    ensures { Appends bytes.now max out.old.items out.new.items result }
{
    if bytes.len() > max as usize {
        return Err(EncodeFault::TooLong);
    }
    out.extend_from_slice(bytes)?;
    Ok(())
}

// Appends the encoding of the part at a place: that of the node's value, or what lies in the leaf.
fn append_part<H: PairHash>(
    arena: &Arena<H>,
    schema: &Schema,
    place: &PartPlace,
    max: u32,
    out: &mut Vec<u8>,
) -> Result<(), EncodeFault>
    requires known { place.now.id < length schema.now.trees }
    requires inside { IsNodeOf arena.now place.now.node }
    requires lies { LiesWithin (type_of schema.now place.now.id) (spot_of place.now.spot) }
    ensures { let t = type_of schema.now place.now.id in
        (v : SszValue) → Fits t v
        → HasPart (spot_of place.now.spot) t v (tree_of arena.now place.now.node)
        → Appends (serialize t v) max out.old.items out.new.items result }
{
    match place.spot {
        Spot::Whole => write_encoding(arena, schema, place.id, place.node, max, out),
        Spot::Byte(from) => {
            let chunk = chunk_of(arena, place.node);
            let from = usize::from(from);
            match schema.basic_size(place.id) {
                Some(size) => append_short(&chunk.0[from..from + size as usize], max, out),
                None => unreachable!(),
            }
        }
        Spot::Bit(at) => {
            let bit = bit_of(chunk_of(arena, place.node), usize::from(at));
            append_short(&[u8::from(bit)], max, out)
        }
    }
}

// The encoding of the part at the path, straight from the nodes of the version; else the code of
// the refusal. Fails for want of memory.
fn encoded<H: PairHash>(
    store: &Store<H>,
    writer: Writer,
    v: &Identifier,
    path: &Steps,
) -> Result<Result<Vec<u8>, u8>, AllocError>
    ensures ok { IfOk result (λ made. IfOk made (λ text.
        PartIsShown serialize store.now writer.0 v.now path.now (Ok text.items))) }
    ensures err { IfOk result (λ made. IfErr made (λ code.
        PartIsShown serialize store.now writer.0 v.now path.now (Err (coded code)))) }
{
    let place = match place_of(store, writer, v, path)? {
        Ok(place) => place,
        Err(code) => return Ok(Err(code)),
    };
    let mut text = Vec::new(store.alloc);
    match append_part(&store.arena, &store.schema, &place, store.max, &mut text) {
        Ok(()) => Ok(Ok(text)),
        Err(EncodeFault::TooLong) => Ok(Err(Reply::TOO_LONG)),
        Err(EncodeFault::Memory) => Err(AllocError),
    }
}

// The JSON text of the part at the path; else the code of the refusal. The part's value is read
// from the nodes of the version first. Fails for want of memory.
fn spelled<H: PairHash>(
    store: &Store<H>,
    writer: Writer,
    v: &Identifier,
    path: &Steps,
) -> Result<Result<Vec<u8>, u8>, AllocError>
    ensures ok { IfOk result (λ made. IfOk made (λ text.
        PartIsShown json_text store.now writer.0 v.now path.now (Ok text.items))) }
    ensures err { IfOk result (λ made. IfErr made (λ code.
        PartIsShown json_text store.now writer.0 v.now path.now (Err (coded code)))) }
{
    let place = match place_of(store, writer, v, path)? {
        Ok(place) => place,
        Err(code) => return Ok(Err(code)),
    };
    let value = part_value(store.alloc, &store.arena, &store.schema, &place)?;
    let mut text = Vec::new(store.alloc);
    match write_json(
        store.alloc,
        &store.schema,
        place.id,
        &value,
        store.max,
        &mut text,
    ) {
        Ok(()) => Ok(Ok(text)),
        Err(JsonWrite::TooLong) => Ok(Err(Reply::TOO_LONG)),
        Err(JsonWrite::Memory) => Err(AllocError),
    }
}

/// `save V FILE`. Fails for want of memory.
pub fn save<'a, H: PairHash>(
    store: &Store<H>,
    writer: Writer,
    place: Place,
    v: &Identifier,
    file: &'a FileName,
) -> Result<Decision<'a>, AllocError>
    ensures { IfOk result (AnswersOf H.pair_of
        (λ rules versions. save rules place versions v.now file.now) nothing writer.0 store.now) }
{
    match place {
        Place::Weave => Ok(Decision::Refused(Reply::NOT_HERE)),
        Place::Run => {
            let whole = Steps::from_vec(Vec::new(store.alloc));
            match encoded(store, writer, v, &whole)? {
                Ok(text) => Ok(Decision::Saved(file, text)),
                Err(code) => Ok(Decision::Refused(code)),
            }
        }
    }
}

/// `bytes V P`. Fails for want of memory.
pub fn bytes<'a, H: PairHash>(
    store: &Store<H>,
    writer: Writer,
    v: &Identifier,
    path: &Steps,
) -> Result<Decision<'a>, AllocError>
    ensures { IfOk result (AnswersOf H.pair_of
        (λ rules versions. bytes rules versions v.now path.now) nothing writer.0 store.now) }
{
    match encoded(store, writer, v, path)? {
        Ok(text) => Ok(Decision::Said(Reply::Bytes(ByteRun::from_bytes(text)))),
        Err(code) => Ok(Decision::Refused(code)),
    }
}

/// `json V P`. Fails for want of memory.
pub fn json<'a, H: PairHash>(
    store: &Store<H>,
    writer: Writer,
    v: &Identifier,
    path: &Steps,
) -> Result<Decision<'a>, AllocError>
    ensures { IfOk result (AnswersOf H.pair_of
        (λ rules versions. json_row rules versions v.now path.now) nothing writer.0 store.now) }
{
    match spelled(store, writer, v, path)? {
        Ok(text) => Ok(Decision::Said(Reply::Json(ByteRun::from_bytes(text)))),
        Err(code) => Ok(Decision::Refused(code)),
    }
}
