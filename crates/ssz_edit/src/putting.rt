ghost use Rattle.std.specs.Prelude.{ℕ, ◌≡◌, ◌+◌, ◌*◌, ◌<◌, ◌≤◌, Some, IsSome, IsOk, IfOk, OnErr};
ghost use Rattle.ssz_chunk.specs.Index.{levels};
ghost use Rattle.ssz_schema.specs.Paths.{Path};
ghost use Rattle.ssz_schema.specs.Sizes.{basic_size};
ghost use Rattle.ssz_schema.specs.Unfolding.{type_of};
ghost use Rattle.ssz_value.specs.Edits.{set_at};
ghost use Rattle.ssz_value.specs.Pairs.{pairs};
ghost use Rattle.ssz_value.specs.Values.{SszValue};
ghost use Rattle.ssz_places.specs.Charges.{set_charge};
ghost use Rattle.ssz_places.specs.PlaceLaws.{IsTreeOf};
ghost use Rattle.ssz_arena.specs.Content.{IsNodeOf, todo, tree_of};
ghost use Rattle.ssz_tree.specs.Added.{AddsNodes, TakesRoom};
ghost use Rattle.ssz_edit.specs.Edited.{Edits};
ghost use Rattle.ssz_edit.specs.Given.{given_value, IsGiven};
ghost use Rattle.ssz_edit.specs.Targets.{HasPlace, SetsAt};

use super::given::{Given, fitting};
use super::parts::part_node;
use super::room::reserve_for;
use ssz_arena::{Arena, NodeId};
use ssz_chunk::PairHash;
use ssz_schema::Schema;
use ssz_walk::Place;
use std::alloc::AllocError;

/// The node with another part at a place that it has, where `open_part` found it: for each path
/// that leads there the node of the edited value. Takes its memory before it makes a node, and
/// fails for want of it; not for a basic part where there is room for as many nodes as the levels
/// of its index, and one more.
pub fn put_part<H: PairHash>(
    arena: &mut Arena<H>,
    schema: &Schema,
    node: NodeId,
    place: &Place,
    given: &Given<'_>,
) -> Result<NodeId, AllocError>
    requires place { HasPlace schema.now arena.old node place.now }
    requires given { IsGiven (type_of schema.now place.now.id) given.now }
    ensures edits { let x = given_value (type_of schema.now place.now.id) given.now in
        (id : ℕ) (path : Path) (v : SszValue) → SetsAt schema.now arena.old id node path place.now
        → IsTreeOf (type_of schema.now id) v (tree_of arena.old node)
        → IfOk result (Edits (type_of schema.now id) arena.old arena.new node
        (set_charge (type_of schema.now id) path x) (set_at (type_of schema.now id) v path x)) }
    ensures node { IfOk result (IsNodeOf arena.new) }
    ensures due { let t = type_of schema.now place.now.id in
        let cost = pairs t (given_value t given.now) in IfOk result (λ made. todo arena.new made
        ≤ todo arena.old node + levels place.now.index + cost) }
    ensures least { IfOk result (λ made. levels place.now.index ≤ todo arena.new made) }
    ensures adds { let t = type_of schema.now place.now.id in
        let cost = pairs t (given_value t given.now) in let more = levels place.now.index in
        AddsNodes (2 * cost + 1 + more) (cost + more) arena.old arena.new }
    ensures room { let t = type_of schema.now place.now.id in
        let cost = pairs t (given_value t given.now) in
        TakesRoom (2 * cost + 1 + levels place.now.index) arena.old arena.new }
    ensures err { OnErr result (arena.new.nodes ≡ arena.old.nodes) }
    ensures basic { IsSome (basic_size (type_of schema.now place.now.id))
        → levels place.now.index + 1 ≤ arena.old.spare → IsOk result }
{
    fitting(schema, place.id, given);
    let levels = place.index.levels() as usize;
    reserve_for(arena, schema, place.id, given, levels)?;
    let part = part_node(arena, schema, place.id, place.node, place.spot, given);
    match arena.replace(node, place.index, part) {
        Some(made) => Ok(made),
        None => unreachable!(),
    }
}
