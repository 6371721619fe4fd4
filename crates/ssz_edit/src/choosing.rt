// Choosing the option of a union.
ghost use Rattle.std.specs.Prelude.{◌≡◌, ◌+◌, ◌*◌, ◌<◌, ◌≤◌, ◌^◌, ℕ, length, IfOk, IfErr, IfSome, IfNone, OnOk, OnErr, option_map};
ghost use Rattle.std.specs.List.{AllByRecursion};
ghost use Rattle.ssz_chunk.specs.Index.{levels};
ghost use Rattle.ssz_schema.specs.Types.{union};
ghost use Rattle.ssz_schema.specs.Unfolding.{type_of, options_over, IsBelow};
ghost use Rattle.ssz_schema.specs.Paths.{Path, path_type};
ghost use Rattle.ssz_value.specs.Values.{SszValue};
ghost use Rattle.ssz_value.specs.Standing.{value_of};
ghost use Rattle.ssz_value.specs.Edits.{choose_at};
ghost use Rattle.ssz_value.specs.Suiting.{IsInner, inner_of};
ghost use Rattle.ssz_places.specs.PlaceLaws.{IsTreeOf};
ghost use Rattle.ssz_places.specs.Charges.{choose_charge};
ghost use Rattle.ssz_arena.specs.Content.{IsNodeOf, KeepsNodes, KeepsTodo, todo, tree_of};
ghost use Rattle.ssz_tree.specs.Added.{AddsNodes, MakesNode, TakesRoom};
ghost use Rattle.ssz_edit.specs.Chosen.{HasNoOptions};
ghost use Rattle.ssz_edit.specs.Edited.{AnswersEdit, Edits};
ghost use Rattle.ssz_edit.specs.Given.{IsOfOption, option_part, option_value};
ghost use Rattle.ssz_edit.specs.Targets.{CannotChoose, ChoosesAt, HasUnion};

use super::given::{Given, fitting, given_node, given_of, option_fitting};
use super::room::reserve_option;
use ssz_arena::{Arena, NodeId};
use ssz_chunk::PairHash;
use ssz_packing::number_chunk;
use ssz_schema::{PathStep, Schema, Ty, TypeId};
use ssz_value::{EditFault, Value, option_at};
use ssz_walk::{Place, find};
use std::alloc::AllocError;

/// Where an option of a union is chosen: the union's place, and the option under the selector, None
/// or a type.
#[derive(Debug, Drop)]
pub struct Choice {
    pub place: Place,
    pub option: Option<TypeId>,
    pub selector: u8,
}

/// The union at the path and its option of this number, from the node of a value of the type: there
/// `put_choice` puts a value of it. The tests of `choose`, in their order: `BadPath`, `Absent`,
/// `NotThat` and `BadSelector`.
pub fn open_choice<H: PairHash>(
    arena: &Arena<H>,
    schema: &Schema,
    id: TypeId,
    node: NodeId,
    path: &[PathStep],
    selector: u8,
) -> Result<Choice, EditFault>
    requires known { id < length schema.now.trees }
    requires node { IsNodeOf arena.now node }
    ensures choice { IfOk result (HasUnion schema.now arena.now node) }
    ensures at { IfOk result (ChoosesAt schema.now arena.now id node path.now selector) }
    ensures err { IfErr result (CannotChoose schema.now arena.now id node path.now selector) }
{
    // By the type it is known where the tree of a value has its parts.
    let _legal = schema.ty(id);
    let place = find(arena, schema, id, node, path)?;
    let Some(options) = options_of(schema, place.id) else {
        return Err(EditFault::NotThat);
    };
    let Some(option) = option_at(options, selector) else {
        return Err(EditFault::BadSelector);
    };
    Ok(Choice {
        place,
        option,
        selector,
    })
}

/// The node of the value whose union at the path has the option of this number with this value,
/// which the option None has not, from the node of a value of the type (edits of whole values:
/// `choose_at`). `BadPath` where the path does not fit the type, `Absent` where the value has no
/// such part, `NotThat` where the part is no union, `BadSelector` where it has no option of this
/// number, and `Memory`; each comes only where none before it does.
///
/// Seven parameters: those of each edit, and which option with which value.
pub fn choose<H: PairHash>(
    arena: &mut Arena<H>,
    schema: &Schema,
    id: TypeId,
    node: NodeId,
    path: &[PathStep],
    selector: u8,
    inner: Option<&Value>,
) -> Result<NodeId, EditFault>
    requires known { id < length schema.now.trees }
    requires node { IsNodeOf arena.old node }
    requires inner { IfSome (path_type (type_of schema.now id) path.now)
        (λ u. IsInner u selector (inner_of inner)) }
    ensures answers { let t = type_of schema.now id in
        let x = option_map value_of (inner_of inner.entry) in
        (v : SszValue) → IsTreeOf t v (tree_of arena.old node) → AnswersEdit t arena.old arena.new
        node (choose_charge t path.now selector x) (choose_at t v path.now selector x) result }
    ensures node { IfOk result (IsNodeOf arena.new) }
    ensures keeps { KeepsNodes arena.old arena.new }
    ensures same { KeepsTodo arena.old arena.new }
    ensures refused { OnErr result (arena.new.nodes ≡ arena.old.nodes) }
    // The pair at the top is new.
    ensures fresh { IfOk result (λ made. 0 < todo arena.new made) }
{
    // By the type it is known where the tree of a value has its parts.
    let _legal = schema.ty(id);
    let choice = open_choice(arena, schema, id, node, path, selector)?;
    let made = put_choice(arena, schema, node, &choice, &given_of(inner))?;
    Ok(made)
}

/// The options of a union, None of any other type.
pub fn options_of(schema: &Schema, id: TypeId) -> Option<&[Option<TypeId>]>
    requires { id < length schema.now.trees }
    ensures some { IfSome result (λ options.
        (type_of schema.now id ≡ union (options_over schema.now.trees options.now))
        × AllByRecursion (IsBelow id) options.now) }
    ensures none { IfNone result (HasNoOptions (type_of schema.now id)) }
{
    match schema.ty(id) {
        Ty::Union(options) => Some(options.as_slice()),
        _ => None,
    }
}

/// The node in which a union has an option, where `open_choice` found it, with what is given for
/// it, which is nothing for None: for each path that leads there the node of the edited value.
/// Takes its memory before it makes a node, and fails for want of it.
pub fn put_choice<H: PairHash>(
    arena: &mut Arena<H>,
    schema: &Schema,
    node: NodeId,
    choice: &Choice,
    inner: &Option<Given<'_>>,
) -> Result<NodeId, AllocError>
    requires choice { HasUnion schema.now arena.old node choice.now }
    requires inner { IsOfOption schema.now choice.now.option inner.now }
    ensures edits { let x = option_value schema.now choice.now.option inner.now in
        (id : ℕ) (path : Path) (k : ℕ) (v : SszValue)
        → ChoosesAt schema.now arena.old id node path k choice.now
        → IsTreeOf (type_of schema.now id) v (tree_of arena.old node)
        → IfOk result (Edits (type_of schema.now id) arena.old arena.new node
        (choose_charge (type_of schema.now id) path k x)
        (choose_at (type_of schema.now id) v path k x)) }
    ensures node { IfOk result (IsNodeOf arena.new) }
    ensures fresh { IfOk result (λ made. 0 < todo arena.new made) }
    ensures adds { let part = option_part schema.now choice.now.option
        (option_value schema.now choice.now.option inner.now) in
        let more = levels choice.now.place.index in
        AddsNodes (2 * part.cost + 3 + more) (part.cost + 1 + more) arena.old arena.new }
    ensures room { let part = option_part schema.now choice.now.option
        (option_value schema.now choice.now.option inner.now) in
        TakesRoom (2 * part.cost + 3 + levels choice.now.place.index) arena.old arena.new }
    ensures err { OnErr result (arena.new.nodes ≡ arena.old.nodes) }
{
    option_fitting(schema, choice.option, inner);
    let levels = choice.place.index.levels() as usize;
    reserve_option(arena, schema, choice.option, inner, levels + 2)?;
    let chosen = option_node(arena, schema, choice.option, inner);
    let number = arena.leaf(number_chunk(u128::from(choice.selector)));
    let union = arena.pair(chosen, number);
    match arena.replace(node, choice.place.index, union) {
        Some(made) => Ok(made),
        None => unreachable!(),
    }
}

// The node of what is given for an option, where there is room: for None every arena has it.
fn option_node<H: PairHash>(
    arena: &mut Arena<H>,
    schema: &Schema,
    option: Option<TypeId>,
    inner: &Option<Given<'_>>,
) -> NodeId
    requires known { IsBelow (length schema.now.trees) option }
    requires inner { IsOfOption schema.now option inner.now }
    requires room { let part = option_part schema.now option
        (option_value schema.now option inner.now) in 2 * part.cost + 1 ≤ arena.old.spare }
    ensures makes { MakesNode arena.old arena.new
        (option_part schema.now option (option_value schema.now option inner.now)) result }
    ensures spare { let part = option_part schema.now option
        (option_value schema.now option inner.now) in
        arena.old.spare ≤ arena.new.spare + 2 * part.cost + 1 }
{
    let Some(id) = option else {
        return arena.zero(0);
    };
    let Some(given) = inner else {
        return arena.zero(0);
    };
    fitting(schema, id, given);
    given_node(arena, schema, id, given)
}
