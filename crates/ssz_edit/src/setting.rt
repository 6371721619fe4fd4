ghost use Rattle.std.specs.Prelude.{◌≡◌, ◌≢◌, ◌+◌, ◌<◌, ◌≤◌, length, Err, IfSome, IsSome, IfOk, IfErr, OnErr};
ghost use Rattle.ssz_schema.specs.Sizes.{basic_size};
ghost use Rattle.ssz_schema.specs.Unfolding.{type_of};
ghost use Rattle.ssz_schema.specs.Paths.{path_type};
ghost use Rattle.ssz_gindex.specs.Paths.{index_levels};
ghost use Rattle.ssz_value.specs.Values.{SszValue};
ghost use Rattle.ssz_value.specs.Standing.{value_of, IsValue};
ghost use Rattle.ssz_value.specs.Edits.{set_at};
ghost use Rattle.ssz_value.specs.declared.edit_fault.EditFault.TheVariants.{Memory};
ghost use Rattle.ssz_places.specs.PlaceLaws.{IsTreeOf};
ghost use Rattle.ssz_places.specs.EditLaws.{is_changeable, is_mixed_in};
ghost use Rattle.ssz_places.specs.Charges.{set_charge};
ghost use Rattle.ssz_arena.specs.Content.{IsNodeOf, KeepsNodes, KeepsTodo, node_count, todo, tree_of};
ghost use Rattle.ssz_edit.specs.Edited.{AnswersEdit};
ghost use Rattle.ssz_edit.specs.Targets.{CannotSet, HasPlace, SetsAt};

use super::given::Given;
use super::putting::put_part;
use ssz_arena::{Arena, NodeId};
use ssz_chunk::PairHash;
use ssz_schema::{PathStep, Schema, TypeId};
use ssz_value::{EditFault, Value};
use ssz_walk::{Place, find};

/// The place of a part that can be set, from the node of a value of the type: its type, and where
/// `put_part` puts another one. The tests of `set`, in their order: `BadPath`, `Absent` and
/// `NotThat`.
pub fn open_part<H: PairHash>(
    arena: &Arena<H>,
    schema: &Schema,
    id: TypeId,
    node: NodeId,
    path: &[PathStep],
) -> Result<Place, EditFault>
    requires known { id < length schema.now.trees }
    requires node { IsNodeOf arena.now node }
    ensures place { IfOk result (HasPlace schema.now arena.now node) }
    ensures at { IfOk result (SetsAt schema.now arena.now id node path.now) }
    ensures err { IfErr result (CannotSet schema.now arena.now id node path.now) }
{
    // By the type it is known where the tree of a value has its parts.
    let _legal = schema.ty(id);
    let place = find(arena, schema, id, node, path)?;
    if !is_changeable(path) {
        return Err(EditFault::NotThat);
    }
    Ok(place)
}

/// The node of the value whose part at the path is this one, from the node of a value of the type
/// (edits of whole values: `set_at`). `BadPath` where the path does not fit the type, `Absent`
/// where the value has no such part, `NotThat` where a step leads to a length or a selector, and
/// `Memory`; each comes only where none before it does.
///
/// A basic part is set without want of memory where there is room for as many nodes as the levels
/// of its index, and one more.
pub fn set<H: PairHash>(
    arena: &mut Arena<H>,
    schema: &Schema,
    id: TypeId,
    node: NodeId,
    path: &[PathStep],
    value: &Value,
) -> Result<NodeId, EditFault>
    requires known { id < length schema.now.trees }
    requires node { IsNodeOf arena.old node }
    requires value { IfSome (path_type (type_of schema.now id) path.now)
        (λ u. IsValue u value.now) }
    ensures answers { let t = type_of schema.now id in let x = value_of value.now in
        (v : SszValue) → IsTreeOf t v (tree_of arena.old node) → AnswersEdit t arena.old arena.new
        node (set_charge t path.now x) (set_at t v path.now x) result }
    ensures node { IfOk result (IsNodeOf arena.new) }
    ensures keeps { KeepsNodes arena.old arena.new }
    ensures same { KeepsTodo arena.old arena.new }
    ensures refused { OnErr result (arena.new.nodes ≡ arena.old.nodes) }
    // Where the part is basic, at most its leaf and the pairs above it are new.
    ensures count { let t = type_of schema.now id in IfSome (path_type t path.now) (λ u.
        IsSome (basic_size u) → node_count arena.new
        ≤ node_count arena.old + index_levels t path.now + 1) }
    // For these there may be room before.
    ensures room { let t = type_of schema.now id in IfSome (path_type t path.now) (λ u.
        IsSome (basic_size u) → index_levels t path.now + 1 ≤ arena.old.spare
        → result ≢ Err Memory) }
    // The root then hashes no more than these pairs and what the old root had to hash.
    ensures due { let t = type_of schema.now id in IfSome (path_type t path.now) (λ u.
        IsSome (basic_size u) → IfOk result (λ made.
        todo arena.new made ≤ todo arena.old node + index_levels t path.now)) }
    // And these pairs at least: each is new.
    ensures least { IfOk result (λ made.
        index_levels (type_of schema.now id) path.now ≤ todo arena.new made) }
{
    // By the type it is known where the tree of a value has its parts.
    let _legal = schema.ty(id);
    let place = open_part(arena, schema, id, node, path)?;
    let made = put_part(arena, schema, node, &place, &Given::Value(value))?;
    Ok(made)
}

/// Whether no step leads to a length or a selector, which cannot be changed alone.
pub fn is_changeable(path: &[PathStep]) -> bool
    ensures { result ≡ is_changeable path.now }
{
    for step in path {
        if is_mixed_in(step) {
            return false;
        }
    }
    true
}

// Whether the step leads to a length or a selector.
fn is_mixed_in(step: &PathStep) -> bool
    ensures { result ≡ is_mixed_in step.now }
{
    match step {
        PathStep::Len | PathStep::Selector => true,
        _ => false,
    }
}
