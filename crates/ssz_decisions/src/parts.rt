//! Where the part of a version is, and its value.
ghost use Rattle.std.specs.Prelude.{◌<◌, Err, length, IfOk, IfErr};
ghost use Rattle.ssz_schema.specs.Unfolding.{type_of};
ghost use Rattle.ssz_value.specs.Standing.{Stands};
ghost use Rattle.ssz_value.specs.Values.{SszValue, Fits};
ghost use Rattle.ssz_arena.specs.Content.{IsNodeOf, tree_of};
ghost use Rattle.ssz_places.specs.Spots.{HasPart, LiesWithin};
ghost use Rattle.ssz_walk.specs.Found.{spot_of};
ghost use Rattle.ssz_machine.specs.Rules.{coded};
ghost use Rattle.ssz_decisions.specs.Shown.{LeadsToPart, PartIsShown, TextOf};

use super::refusals::code_of_path;
use super::store::Store;
use super::ways::way_from;
use ssz_arena::Arena;
use ssz_chunk::PairHash;
use ssz_line::Steps;
use ssz_nodes::{Basic, bit_of, chunk_of};
use ssz_reading::read_value;
use ssz_schema::Schema;
use ssz_script::Identifier;
use ssz_value::Value;
use ssz_versions::Writer;
use ssz_walk::{Place, Spot, find};
use std::alloc::{AllocError, Global};

/// Where the part at the path of a version is; else the code of the refusal. Fails for want of
/// memory.
pub(crate) fn place_of<H: PairHash>(
    store: &Store<H>,
    writer: Writer,
    v: &Identifier,
    path: &Steps,
) -> Result<Result<Place, u8>, AllocError>
    ensures ok { IfOk result (λ found. IfOk found
        (LeadsToPart store.now writer.0 v.now path.now)) }
    ensures err { IfOk result (λ found. IfErr found (λ code. (text : TextOf)
        → PartIsShown text store.now writer.0 v.now path.now (Err (coded code)))) }
{
    let way = match way_from(store, writer, v, path)? {
        Ok(way) => way,
        Err(code) => return Ok(Err(code)),
    };
    let steps = way.steps.as_slice();
    // By the type it is known where the tree of a value has its parts.
    let _legal = store.schema.ty(way.id);
    match find(&store.arena, &store.schema, way.id, way.node, steps) {
        Ok(place) => Ok(Ok(place)),
        Err(fault) => Ok(Err(code_of_path(fault))),
    }
}

/// The value of the part at a place: that of the node's tree, or what lies in the leaf. Fails for
/// want of memory.
pub(crate) fn part_value<H: PairHash>(
    alloc: Global,
    arena: &Arena<H>,
    schema: &Schema,
    place: &Place,
) -> Result<Value, AllocError>
    requires known { place.now.id < length schema.now.trees }
    requires inside { IsNodeOf arena.now place.now.node }
    requires lies { LiesWithin (type_of schema.now place.now.id) (spot_of place.now.spot) }
    ensures { let t = type_of schema.now place.now.id in
        (v : SszValue) → Fits t v
        → HasPart (spot_of place.now.spot) t v (tree_of arena.now place.now.node)
        → IfOk result (Stands t v) }
{
    match place.spot {
        Spot::Whole => read_value(alloc, arena, schema, place.id, place.node),
        Spot::Byte(from) => match Basic::of(schema, place.id) {
            Some(basic) => Ok(basic.value_at(chunk_of(arena, place.node), usize::from(from))),
            None => unreachable!(),
        },
        Spot::Bit(at) => {
            let bit = bit_of(chunk_of(arena, place.node), usize::from(at));
            Ok(Value::Bool(bit))
        }
    }
}
