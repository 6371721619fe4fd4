ghost use Rattle.std.specs.Prelude.{◌≡◌, ◌<◌, length, IfOk, OnErr};
ghost use Rattle.ssz_schema.specs.Unfolding.{type_of};
ghost use Rattle.ssz_value.specs.Values.{SszValue};
ghost use Rattle.ssz_places.specs.PlaceLaws.{IsTreeOf};
ghost use Rattle.ssz_arena.specs.Content.{IsNodeOf, KeepsNodes, KeepsTodo, tree_of};
ghost use Rattle.ssz_forms.specs.Upgrades.{upgraded};
ghost use Rattle.ssz_upgrade.specs.Upgraded.{AnswersUpgrade};

use super::fields::{field_nodes, nodes_taken};
use ssz_arena::{Arena, NodeId};
use ssz_chunk::PairHash;
use ssz_forms::{UpgradeFault, fields_taken};
use ssz_schema::{Schema, Ty, TypeId};
use ssz_tree::build_fields;

/// The node of the value of the type `to` that has, for each of its fields, the field of the same
/// name of a value of the type `from` where that has one of an equal type, and the field's default
/// where it has none; from the node of that value (upgrades of whole values: `upgraded`). The nodes
/// of the fields taken are shared. `NotContainer` exactly where one of the two types is no
/// container.
pub fn upgrade<H: PairHash>(
    arena: &mut Arena<H>,
    schema: &Schema,
    from: TypeId,
    node: NodeId,
    to: TypeId,
) -> Result<NodeId, UpgradeFault>
    requires from { from < length schema.now.trees }
    requires to { to < length schema.now.trees }
    requires node { IsNodeOf arena.old node }
    ensures answers { let s = type_of schema.now from in let t = type_of schema.now to in
        (v : SszValue) → IsTreeOf s v (tree_of arena.old node)
        → AnswersUpgrade s t arena.old arena.new node (upgraded s v t) result }
    ensures node { IfOk result (IsNodeOf arena.new) }
    ensures keeps { KeepsNodes arena.old arena.new }
    ensures same { KeepsTodo arena.old arena.new }
    ensures refused { OnErr result (arena.new.nodes ≡ arena.old.nodes) }
{
    let Ty::Container(old) = schema.ty(from) else {
        return Err(UpgradeFault::NotContainer);
    };
    let Ty::Container(new) = schema.ty(to) else {
        return Err(UpgradeFault::NotContainer);
    };
    let alloc = arena.allocator();
    let taken = fields_taken(alloc, schema, old.as_slice(), new.as_slice())?;
    let nodes = field_nodes(alloc, arena, node, schema.depth(from), old.len())?;
    let given = nodes_taken(alloc, nodes.as_slice(), taken.as_slice())?;
    // What is to be hashed for the fields is no more than for the whole.
    arena.parts_add_up();
    let made = build_fields(arena, schema, to, given.as_slice())?;
    Ok(made)
}
