// Lists and bitlists whose content and length are put in their place together.
ghost use Rattle.std.specs.Prelude.{ℕ, ◌≡◌, ◌+◌, ◌*◌, ◌<◌, ◌≤◌, [], ◌∷◌, length, IfOk, IfSome, IfNone, OnErr};
ghost use Rattle.ssz_chunk.specs.Index.{levels};
ghost use Rattle.ssz_schema.specs.declared.path.PathStep.TheVariants.{Index};
ghost use Rattle.ssz_schema.specs.Unfolding.{type_of};
ghost use Rattle.ssz_value.specs.Pairs.{pairs};
ghost use Rattle.ssz_schema.specs.Paths.{Path};
ghost use Rattle.ssz_value.specs.Edits.{append_at};
ghost use Rattle.ssz_value.specs.Values.{SszValue};
ghost use Rattle.ssz_places.specs.Charges.{append_charge};
ghost use Rattle.ssz_places.specs.PlaceLaws.{IsTreeOf};
ghost use Rattle.ssz_places.specs.Spots.{CanHold, LiesWithin};
ghost use Rattle.ssz_places.specs.EditLaws.{IsCounted};
ghost use Rattle.ssz_arena.specs.Content.{IsNodeOf, todo, tree_of};
ghost use Rattle.ssz_tree.specs.Added.{AddsNodes, IsPartNode, TakesRoom};
ghost use Rattle.ssz_making.specs.Parts.{MadePart};
ghost use Rattle.ssz_walk.specs.Found.{LeadsNowhere, spot_of};
ghost use Rattle.ssz_walk.specs.Mixed.{HasContentNode};
ghost use Rattle.ssz_edit.specs.Edited.{part_without, Edits};
ghost use Rattle.ssz_edit.specs.Given.{given_value, IsGiven};
ghost use Rattle.ssz_edit.specs.Slots.{HasList, IsSlot, IsGrown, slot_limit};
ghost use Rattle.ssz_edit.specs.Targets.{AppendsAt, HasEnd};

use super::given::{Given, fitting};
use super::parts::{emptied_node, part_node};
use super::room::reserve_for;
use ssz_arena::{Arena, NodeId, NodeRef};
use ssz_chunk::PairHash;
use ssz_gindex::Gindex;
use ssz_packing::number_chunk;
use ssz_schema::{PathStep, Schema, Ty, TypeId};
use ssz_walk::{Place, step_place};
use std::alloc::AllocError;

/// The limit of a list or bitlist, None of any other type.
pub fn limit_of(schema: &Schema, id: TypeId) -> Option<u64>
    requires { id < length schema.now.trees }
    ensures { result ≡ slot_limit (type_of schema.now id) }
{
    match schema.ty(id) {
        Ty::List(_, limit) | Ty::Bitlist(limit) => Some(*limit),
        _ => None,
    }
}

/// Where an element of a list or bitlist is: its place from the list's node, and the index of its
/// node below the content.
#[derive(Debug, Drop)]
pub struct Slot {
    pub element: Place,
    pub below: Gindex,
}

/// Where the next element of a list or bitlist goes: the list's place, the slot behind its last
/// element, and how many there are.
#[derive(Debug, Drop)]
pub struct ListEnd {
    pub list: Place,
    pub slot: Slot,
    pub count: u64,
}

/// The slot of element i, whether it is there or not. None where it leads below a leaf.
pub fn slot_at<H: PairHash>(
    arena: &Arena<H>,
    schema: &Schema,
    list: &Place,
    content: NodeId,
    i: u64,
) -> Option<Slot>
    requires known { list.now.id < length schema.now.trees }
    requires inside { IsNodeOf arena.now list.now.node }
    requires counted { IsCounted (type_of schema.now list.now.id) }
    requires content { HasContentNode arena.now list.now.node content }
    ensures slot { IfSome result (IsSlot schema.now arena.now list.now.id list.now.node content i) }
    ensures none { IfNone result (LeadsNowhere schema.now arena.now list.now.id list.now.node
        (Index i ∷ [])) }
{
    let Some(element) = step_place(arena, schema, list.id, list.node, &PathStep::Index(i)) else {
        return None;
    };
    let number = element.index.get();
    let half = 1u128 << schema.depth(list.id);
    let rest = number - half;
    let Some(below) = Gindex::new(rest) else {
        return None;
    };
    Some(Slot { element, below })
}

/// The node in which the list at a place has another element and a new length. The list is made
/// once, and put in its place once.
pub fn put_list<H: PairHash>(
    arena: &mut Arena<H>,
    node: NodeId,
    list: &Place,
    below: Gindex,
    element: NodeId,
    count: u64,
) -> NodeId
    requires list { HasList arena.old node list.now below }
    requires element { IsNodeOf arena.old element }
    requires room { levels below + 2 + levels list.now.index ≤ arena.old.spare }
    ensures node { IsNodeOf arena.new result }
    ensures grown { (part : MadePart) → IsPartNode arena.old part element
        → IsGrown arena.old arena.new node list.now below part count result }
    ensures fresh { 0 < todo arena.new result }
    ensures adds { let more = levels list.now.index in
        AddsNodes (levels below + 2 + more) (levels below + 1 + more) arena.old arena.new }
{
    let NodeRef::Pair(content, _) = arena.node(list.node) else {
        return node;
    };
    let Some(grown) = arena.replace(content, below, element) else {
        return node;
    };
    let len = arena.leaf(number_chunk(u128::from(count)));
    let pair = arena.pair(grown, len);
    match arena.replace(node, list.index, pair) {
        Some(made) => made,
        None => node,
    }
}

/// The node in which a list or bitlist has one more element at its end, where `open_end` found it:
/// for each path that leads there the node of the edited value. Takes its memory before it makes a
/// node, and fails for want of it.
pub fn put_element<H: PairHash>(
    arena: &mut Arena<H>,
    schema: &Schema,
    node: NodeId,
    end: &ListEnd,
    given: &Given<'_>,
) -> Result<NodeId, AllocError>
    requires end { HasEnd schema.now arena.old node end.now }
    requires given { IsGiven (type_of schema.now end.now.slot.element.id) given.now }
    ensures edits { let x = given_value (type_of schema.now end.now.slot.element.id) given.now in
        (id : ℕ) (path : Path) (v : SszValue)
        → AppendsAt schema.now arena.old id node path end.now
        → IsTreeOf (type_of schema.now id) v (tree_of arena.old node)
        → IfOk result (Edits (type_of schema.now id) arena.old arena.new node
        (append_charge (type_of schema.now id) v path x)
        (append_at (type_of schema.now id) v path x)) }
    ensures node { IfOk result (IsNodeOf arena.new) }
    ensures fresh { IfOk result (λ made. 0 < todo arena.new made) }
    ensures adds { let t = type_of schema.now end.now.slot.element.id in
        let cost = pairs t (given_value t given.now) in
        let more = levels end.now.slot.below + levels end.now.list.index in
        AddsNodes (2 * cost + 3 + more) (cost + 1 + more) arena.old arena.new }
    ensures room { let t = type_of schema.now end.now.slot.element.id in
        let cost = pairs t (given_value t given.now) in
        let more = levels end.now.slot.below + levels end.now.list.index in
        TakesRoom (2 * cost + 3 + more) arena.old arena.new }
    ensures err { OnErr result (arena.new.nodes ≡ arena.old.nodes) }
{
    let list = &end.list;
    let slot = &end.slot;
    let id = slot.element.id;
    fitting(schema, id, given);
    let levels = slot.below.levels() as usize + list.index.levels() as usize;
    reserve_for(arena, schema, id, given, levels + 2)?;
    let old = slot.element.node;
    let element = part_node(arena, schema, id, old, slot.element.spot, given);
    Ok(put_list(arena, node, list, slot.below, element, end.count + 1))
}

/// The node in which the list at a place has nothing in a slot, and a new length. Takes its memory
/// before it makes a node.
pub fn empty_slot<H: PairHash>(
    arena: &mut Arena<H>,
    schema: &Schema,
    node: NodeId,
    list: &Place,
    slot: &Slot,
    count: u64,
) -> Result<NodeId, AllocError>
    requires known { slot.now.element.id < length schema.now.trees }
    requires list { HasList arena.old node list.now slot.now.below }
    requires inside { IsNodeOf arena.old slot.now.element.node }
    requires lies { LiesWithin (type_of schema.now slot.now.element.id)
        (spot_of slot.now.element.spot) }
    ensures node { IfOk result (IsNodeOf arena.new) }
    ensures grown { let u = type_of schema.now slot.now.element.id in
        let tree = tree_of arena.old slot.now.element.node in
        let spot = spot_of slot.now.element.spot in CanHold spot tree
        → IfOk result (IsGrown arena.old arena.new node list.now slot.now.below
        (part_without spot u tree) count) }
    ensures fresh { IfOk result (λ made. 0 < todo arena.new made) }
    ensures adds { let more = levels slot.now.below + levels list.now.index in
        AddsNodes (3 + more) (1 + more) arena.old arena.new }
    ensures room { TakesRoom (3 + (levels slot.now.below + levels list.now.index))
        arena.old arena.new }
    ensures err { OnErr result (arena.new.nodes ≡ arena.old.nodes) }
{
    let levels = slot.below.levels() as usize + list.index.levels() as usize;
    arena.reserve(levels + 3)?;
    let old = slot.element.node;
    let element = emptied_node(arena, schema, slot.element.id, old, slot.element.spot);
    Ok(put_list(arena, node, list, slot.below, element, count))
}
