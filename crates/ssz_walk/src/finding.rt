ghost use Rattle.std.specs.Prelude.{◌<◌, [], ◌∷◌, length, IfOk, IfErr, IfSome, IfNone};
ghost use Rattle.ssz_arena.specs.Content.{IsNodeOf};
ghost use Rattle.ssz_walk.specs.Found.{IsFound, IsAbsent, IsLed, IsLost, LeadsNowhere};
ghost use Rattle.ssz_walk.specs.Ways.{IsWay};

use super::place::{Place, Spot};
use super::present::is_present;
use super::way::{Way, way_of};
use ssz_arena::{Arena, NodeId};
use ssz_chunk::PairHash;
use ssz_gindex::Gindex;
use ssz_schema::{PathStep, Schema, TypeId};
use ssz_value::PathFault;

/// The place of the part at the path, from the node of a value of the type. `BadPath` exactly where
/// the path does not fit the type, and else `Absent` exactly where the value has no such part.
pub fn find<H: PairHash>(
    arena: &Arena<H>,
    schema: &Schema,
    id: TypeId,
    node: NodeId,
    path: &[PathStep],
) -> Result<Place, PathFault>
    requires known { id < length schema.now.trees }
    requires node { IsNodeOf arena.now node }
    ensures found { IfOk result (IsFound schema.now arena.now id node path.now) }
    ensures lost { IfErr result (IsLost schema.now arena.now id node path.now) }
{
    // By the type it is known that the tree of a value has its parts.
    let _legal = schema.ty(id);
    let mut index = Gindex::root();
    let mut part = id;
    let mut here = node;
    let mut spot = Spot::Whole;
    for step in path {
        let Some(way) = way_of(schema, part, step) else {
            return Err(PathFault::BadPath);
        };
        let Some(next) = next_place(arena, schema, part, here, step, &way) else {
            return Err(PathFault::without(schema, id, path));
        };
        index = way.index_below(index);
        part = next.id;
        here = next.node;
        spot = next.spot;
    }
    Ok(Place {
        id: part,
        node: here,
        index,
        spot,
    })
}

// The place of the part that the step leads to, if the part is there.
fn next_place<H: PairHash>(
    arena: &Arena<H>,
    schema: &Schema,
    id: TypeId,
    node: NodeId,
    step: &PathStep,
    way: &Way,
) -> Option<Place>
    requires known { id < length schema.now.trees }
    requires node { IsNodeOf arena.now node }
    requires way { IsWay schema.now id step.now way.now }
    ensures found { IfSome result (IsFound schema.now arena.now id node (step.now ∷ [])) }
    ensures absent { IfNone result (IsAbsent schema.now arena.now id node (step.now ∷ [])) }
{
    let _legal = schema.ty(id);
    if !is_present(arena, schema, id, node, step) {
        return None;
    }
    led_place(arena, schema, id, node, step, way)
}

/// The place that the step leads to by the type alone, whether a part is there or not. None exactly
/// where the step does not fit or leads below a leaf.
pub fn step_place<H: PairHash>(
    arena: &Arena<H>,
    schema: &Schema,
    id: TypeId,
    node: NodeId,
    step: &PathStep,
) -> Option<Place>
    requires known { id < length schema.now.trees }
    requires node { IsNodeOf arena.now node }
    ensures led { IfSome result (IsLed schema.now arena.now id node (step.now ∷ [])) }
    ensures none { IfNone result (LeadsNowhere schema.now arena.now id node (step.now ∷ [])) }
{
    match way_of(schema, id, step) {
        Some(way) => led_place(arena, schema, id, node, step, &way),
        None => None,
    }
}

// The same of a step that is known to lead there.
fn led_place<H: PairHash>(
    arena: &Arena<H>,
    schema: &Schema,
    id: TypeId,
    node: NodeId,
    step: &PathStep,
    way: &Way,
) -> Option<Place>
    requires known { id < length schema.now.trees }
    requires node { IsNodeOf arena.now node }
    requires way { IsWay schema.now id step.now way.now }
    ensures led { IfSome result (IsLed schema.now arena.now id node (step.now ∷ [])) }
    ensures none { IfNone result (LeadsNowhere schema.now arena.now id node (step.now ∷ [])) }
{
    // A legal type has at most 126 levels, so that the index fits.
    let _legal = schema.ty(id);
    let index = way.index_below(Gindex::root());
    let Some(found) = arena.down(node, index) else {
        return None;
    };
    Some(Place {
        id: way.part,
        node: found,
        index,
        spot: way.spot,
    })
}
