// Appending to lists and bitlists, and popping from them.
ghost use Rattle.std.specs.Prelude.{◌≡◌, ◌<◌, length, IfOk, IfErr, IfSome, OnErr};
ghost use Rattle.ssz_schema.specs.Unfolding.{type_of};
ghost use Rattle.ssz_schema.specs.Paths.{path_type};
ghost use Rattle.ssz_value.specs.Values.{SszValue};
ghost use Rattle.ssz_value.specs.Standing.{value_of};
ghost use Rattle.ssz_value.specs.Edits.{append_at, pop_at};
ghost use Rattle.ssz_value.specs.Suiting.{IsElement};
ghost use Rattle.ssz_places.specs.PlaceLaws.{IsTreeOf};
ghost use Rattle.ssz_places.specs.Charges.{append_charge, pop_charge};
ghost use Rattle.ssz_arena.specs.Content.{IsNodeOf, KeepsNodes, KeepsTodo, todo, tree_of};
ghost use Rattle.ssz_edit.specs.Edited.{AnswersEdit};
ghost use Rattle.ssz_edit.specs.Targets.{AppendsAt, CannotAppend, HasEnd};

use super::given::Given;
use super::lists::{ListEnd, empty_slot, limit_of, put_element, slot_at};
use ssz_arena::{Arena, NodeId};
use ssz_chunk::PairHash;
use ssz_schema::{PathStep, Schema, TypeId};
use ssz_value::{EditFault, Value};
use ssz_walk::{find, mixed_in};

/// Where the next element goes of the list or bitlist at the path, from the node of a value of the
/// type: there `put_element` puts one. The tests of `append`, in their order: `BadPath`, `Absent`,
/// `NotThat` and `Full`.
pub fn open_end<H: PairHash>(
    arena: &Arena<H>,
    schema: &Schema,
    id: TypeId,
    node: NodeId,
    path: &[PathStep],
) -> Result<ListEnd, EditFault>
    requires known { id < length schema.now.trees }
    requires node { IsNodeOf arena.now node }
    ensures end { IfOk result (HasEnd schema.now arena.now node) }
    ensures at { IfOk result (AppendsAt schema.now arena.now id node path.now) }
    ensures err { IfErr result (CannotAppend schema.now arena.now id node path.now) }
{
    // By the type it is known where the tree of a value has its parts.
    let _legal = schema.ty(id);
    let list = find(arena, schema, id, node, path)?;
    let Some(limit) = limit_of(schema, list.id) else {
        return Err(EditFault::NotThat);
    };
    // Beside the content of a list or bitlist stands its length.
    let Some((content, count)) = mixed_in(arena, list.node) else {
        return Err(EditFault::NotThat);
    };
    if count >= limit {
        return Err(EditFault::Full);
    }
    let Some(slot) = slot_at(arena, schema, &list, content, count) else {
        return Err(EditFault::Full);
    };
    Ok(ListEnd { list, slot, count })
}

/// The node of the value whose list or bitlist at the path has this element behind its last one,
/// from the node of a value of the type (edits of whole values: `append_at`). `BadPath` where the
/// path does not fit the type, `Absent` where the value has no such part, `NotThat` where the part
/// is no list and no bitlist, `Full` where it has as many elements as its limit, and `Memory`; each
/// comes only where none before it does. The pairs above the list are made once.
pub fn append<H: PairHash>(
    arena: &mut Arena<H>,
    schema: &Schema,
    id: TypeId,
    node: NodeId,
    path: &[PathStep],
    value: &Value,
) -> Result<NodeId, EditFault>
    requires known { id < length schema.now.trees }
    requires node { IsNodeOf arena.old node }
    requires value { IfSome (path_type (type_of schema.now id) path.now)
        (λ u. IsElement u value.now) }
    ensures answers { let t = type_of schema.now id in let x = value_of value.now in
        (v : SszValue) → IsTreeOf t v (tree_of arena.old node) → AnswersEdit t arena.old arena.new
        node (append_charge t v path.now x) (append_at t v path.now x) result }
    ensures node { IfOk result (IsNodeOf arena.new) }
    ensures keeps { KeepsNodes arena.old arena.new }
    ensures same { KeepsTodo arena.old arena.new }
    ensures refused { OnErr result (arena.new.nodes ≡ arena.old.nodes) }
    // The pair at the top is new.
    ensures fresh { IfOk result (λ made. 0 < todo arena.new made) }
{
    // By the type it is known where the tree of a value has its parts.
    let _legal = schema.ty(id);
    let end = open_end(arena, schema, id, node, path)?;
    let made = put_element(arena, schema, node, &end, &Given::Value(value))?;
    Ok(made)
}

/// The node of the value whose list or bitlist at the path has no longer its last element, from the
/// node of a value of the type (edits of whole values: `pop_at`). `BadPath` where the path does not
/// fit the type, `Absent` where the value has no such part, `NotThat` where the part is no list and
/// no bitlist, `Empty` where it has no element, and `Memory`; each comes only where none before it
/// does. Zeros stand where the element was. The pairs above the list are made once.
pub fn pop<H: PairHash>(
    arena: &mut Arena<H>,
    schema: &Schema,
    id: TypeId,
    node: NodeId,
    path: &[PathStep],
) -> Result<NodeId, EditFault>
    requires known { id < length schema.now.trees }
    requires node { IsNodeOf arena.old node }
    ensures answers { let t = type_of schema.now id in
        (v : SszValue) → IsTreeOf t v (tree_of arena.old node) → AnswersEdit t arena.old arena.new
        node (pop_charge t v path.now) (pop_at t v path.now) result }
    ensures node { IfOk result (IsNodeOf arena.new) }
    ensures keeps { KeepsNodes arena.old arena.new }
    ensures same { KeepsTodo arena.old arena.new }
    ensures refused { OnErr result (arena.new.nodes ≡ arena.old.nodes) }
    // The pair at the top is new.
    ensures fresh { IfOk result (λ made. 0 < todo arena.new made) }
{
    // By the type it is known where the tree of a value has its parts.
    let _legal = schema.ty(id);
    let place = find(arena, schema, id, node, path)?;
    let Some(limit) = limit_of(schema, place.id) else {
        return Err(EditFault::NotThat);
    };
    // Beside the content of a list or bitlist stands its length.
    let Some((content, count)) = mixed_in(arena, place.node) else {
        return Err(EditFault::NotThat);
    };
    if count == 0 {
        return Err(EditFault::Empty);
    }
    // No value has more elements than the limit.
    let last = count - 1;
    if last >= limit {
        return Err(EditFault::Empty);
    }
    let Some(slot) = slot_at(arena, schema, &place, content, last) else {
        return Err(EditFault::Empty);
    };
    let made = empty_slot(arena, schema, node, &place, &slot, last)?;
    Ok(made)
}
