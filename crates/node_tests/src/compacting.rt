ghost use Rattle.std.specs.Prelude.{◌<◌, length, IfOk};
ghost use Rattle.ssz_arena.specs.Content.{IsNodeOf};

use super::versions::compacted;
use ssz_arena::{Arena, NodeId};
use ssz_chunk::{PairHash, XorPair};
use ssz_edit::set;
use ssz_schema::{Schema, TypeId};
use ssz_value::{Value, fits};
use std::alloc::Global;
use std::test::Fail;

// The node of a number that is set in the place of another.
fn set_number<H: PairHash>(
    arena: &mut Arena<H>,
    schema: &Schema,
    id: TypeId,
    node: NodeId,
    number: u64,
) -> Result<NodeId, Fail>
    requires known { id < length schema.now.trees }
    requires node { IsNodeOf arena.old node }
    ensures { IfOk result (IsNodeOf arena.new) }
{
    let value = Value::Uint(u128::from(number));
    if !fits(schema, id, &value) {
        return Err("no number".into());
    }
    match set(arena, schema, id, node, &[], &value) {
        Ok(made) => Ok(made),
        Err(_) => Err("not set".into()),
    }
}

// The node after a thousand numbers were set, one after another.
fn set_numbers<H: PairHash>(
    arena: &mut Arena<H>,
    schema: &Schema,
    id: TypeId,
    first: NodeId,
) -> Result<NodeId, Fail>
    requires known { id < length schema.now.trees }
    requires node { IsNodeOf arena.old first }
    ensures { IfOk result (IsNodeOf arena.new) }
{
    let mut node = first;
    for number in 0..1000 {
        node = set_number(arena, schema, id, node, number)?;
    }
    Ok(node)
}

// The type of the number that is set last, and its node.
fn set_last<H: PairHash>(alloc: Global, arena: &mut Arena<H>) -> Result<(TypeId, NodeId), Fail>
    ensures { IfOk result (λ last. IsNodeOf arena.new last.1) }
{
    let schema = Schema::empty(alloc)?;
    let id = schema.find("uint64").ok_or("uint64")?;
    let first = arena.zero(0);
    Ok((id, set_numbers(arena, &schema, id, first)?))
}

// The zero table of 127 nodes and the number's leaf are left.
#[test]
fn a_thousand_sets_leave_one_leaf(rt: HostRuntime) -> Result<(), Fail> {
    let mut arena = Arena::start(rt.alloc(), &mut XorPair::new())?;
    let (id, last) = set_last(rt.alloc(), &mut arena)?;
    assert!(rt; arena.len() > 1000);
    assert!(rt; compacted(rt.alloc(), &mut arena, id, last)?);
    assert!(rt; arena.len() == 128);
    Ok(())
}
