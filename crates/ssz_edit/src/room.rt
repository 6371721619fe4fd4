ghost use Rattle.std.specs.Prelude.{◌≡◌, ◌+◌, ◌*◌, ◌<◌, ◌≤◌, ◌^◌, length, IsSome, IsOk, OnOk, OnErr};
ghost use Rattle.ssz_schema.specs.Sizes.{basic_size};
ghost use Rattle.ssz_schema.specs.Unfolding.{type_of, IsBelow};
ghost use Rattle.ssz_value.specs.Pairs.{pairs};
ghost use Rattle.ssz_tree.specs.Added.{TakesRoom};
ghost use Rattle.ssz_edit.specs.Given.{given_value, option_part, option_value, IsGiven, IsOfOption};

use super::given::{Given, given_needed};
use ssz_arena::Arena;
use ssz_chunk::PairHash;
use ssz_schema::{Schema, TypeId};
use ssz_tree::reserve_nodes;
use std::alloc::AllocError;

/// Makes room for the nodes of what is given and for as many more. Fails for want of memory: not
/// for a basic value where there is room already.
pub fn reserve_for<H: PairHash>(
    arena: &mut Arena<H>,
    schema: &Schema,
    id: TypeId,
    given: &Given<'_>,
    more: usize,
) -> Result<(), AllocError>
    requires known { id < length schema.now.trees }
    requires given { IsGiven (type_of schema.now id) given.now }
    requires few { more < 2 ^ 32 }
    ensures nodes { arena.new.nodes ≡ arena.old.nodes }
    ensures more { arena.old.spare ≤ arena.new.spare }
    ensures ok { let t = type_of schema.now id in
        OnOk result (2 * pairs t (given_value t given.now) + 1 + more ≤ arena.new.spare) }
    ensures basic { IsSome (basic_size (type_of schema.now id)) → 1 + more ≤ arena.old.spare
        → IsOk result }
    ensures stays { let t = type_of schema.now id in
        2 * pairs t (given_value t given.now) + 1 + more ≤ arena.old.spare
        → arena.new ≡ arena.old }
    ensures most { let t = type_of schema.now id in
        TakesRoom (2 * pairs t (given_value t given.now) + 1 + more) arena.old arena.new }
    ensures err { OnErr result (arena.new ≡ arena.old) }
{
    // The greatest number stands for all greater ones.
    let nodes = given_needed(schema, id, given) as u64;
    reserve_nodes(arena, nodes.saturating_add(more as u64))
}

/// The same for what is given for an option, which is nothing for None.
pub fn reserve_option<H: PairHash>(
    arena: &mut Arena<H>,
    schema: &Schema,
    option: Option<TypeId>,
    inner: &Option<Given<'_>>,
    more: usize,
) -> Result<(), AllocError>
    requires known { IsBelow (length schema.now.trees) option }
    requires inner { IsOfOption schema.now option inner.now }
    requires few { more < 2 ^ 32 }
    ensures nodes { arena.new.nodes ≡ arena.old.nodes }
    ensures more { arena.old.spare ≤ arena.new.spare }
    ensures ok { let part = option_part schema.now option
        (option_value schema.now option inner.now) in
        OnOk result (2 * part.cost + 1 + more ≤ arena.new.spare) }
    ensures stays { let part = option_part schema.now option
        (option_value schema.now option inner.now) in
        2 * part.cost + 1 + more ≤ arena.old.spare → arena.new ≡ arena.old }
    ensures most { let part = option_part schema.now option
        (option_value schema.now option inner.now) in
        TakesRoom (2 * part.cost + 1 + more) arena.old arena.new }
    ensures err { OnErr result (arena.new ≡ arena.old) }
{
    let Some(id) = option else {
        return arena.reserve(more + 1);
    };
    let Some(given) = inner else {
        return arena.reserve(more + 1);
    };
    reserve_for(arena, schema, id, given, more)
}
