ghost use Rattle.std.specs.Prelude.{◌<◌, length, IfOk};
ghost use Rattle.ssz_arena.specs.Content.{IsNodeOf};

use ssz_arena::{Arena, NodeId, NodeRef};
use ssz_chunk::{Chunk, PairHash, XorPair};
use ssz_forms::UpgradeFault;
use ssz_schema::{Name, Schema, TypeExpr, Width};
use ssz_upgrade::upgrade;
use std::alloc::{AllocError, Global};
use std::test::Fail;

// A field of one byte, of a number.
fn field(alloc: Global, name: u8, width: Width) -> Result<(Name, TypeExpr), AllocError> {
    let name = Name::copy_of(alloc, &[name])?;
    Ok((name, TypeExpr::Uint(width)))
}

// A container of these fields, of as many numbers.
fn container(alloc: Global, names: &[u8], widths: &[Width]) -> Result<TypeExpr, AllocError> {
    let mut fields = Vec::new(alloc);
    for (name, width) in names.iter().zip(widths) {
        fields.push(field(alloc, *name, *width)?)?;
    }
    Ok(TypeExpr::Container(fields))
}

// A union of one boolean.
fn union(alloc: Global) -> Result<TypeExpr, AllocError> {
    let mut options = Vec::new(alloc);
    options.push(Some(TypeExpr::Boolean))?;
    Ok(TypeExpr::Union(options))
}

// Gives a type that could be made a name.
fn add(
    schema: &mut Schema,
    alloc: Global,
    name: &[u8],
    expr: Result<TypeExpr, AllocError>,
) -> Result<(), Fail> {
    let expr = expr?;
    let name = Name::copy_of(alloc, name)?;
    match schema.add(&name, &expr) {
        Ok(_) => Ok(()),
        Err(_) => Err("not legal".into()),
    }
}

// P, of two numbers; New, which takes b of P alone; a union.
fn schema(alloc: Global) -> Result<Schema, Fail> {
    let mut schema = Schema::empty(alloc)?;
    let two = [Width::W64, Width::W64];
    let three = [Width::W64, Width::W8, Width::W64];
    add(&mut schema, alloc, b"P", container(alloc, b"ab", &two))?;
    add(&mut schema, alloc, b"New", container(alloc, b"bac", &three))?;
    add(&mut schema, alloc, b"Either", union(alloc))?;
    Ok(schema)
}

// A chunk with one byte at a place.
fn chunk(place: usize, byte: u8) -> Chunk
    requires { place < 32 }
{
    let mut bytes = [0; 32];
    bytes[place] = byte;
    Chunk(bytes)
}

// P of a 1, b 2.
fn one_and_two<H: PairHash>(arena: &mut Arena<H>) -> Result<NodeId, AllocError>
    ensures { IfOk result (IsNodeOf arena.new) }
{
    arena.reserve(3)?;
    let a = arena.leaf(chunk(0, 1));
    let b = arena.leaf(chunk(0, 2));
    Ok(arena.pair(a, b))
}

// The upgrade of a node between two types of the schema above.
fn upgraded<H: PairHash>(
    alloc: Global,
    arena: &mut Arena<H>,
    from: &str,
    to: &str,
    node: NodeId,
) -> Result<Result<NodeId, UpgradeFault>, Fail>
    requires { IsNodeOf arena.old node }
    ensures made { IfOk result (λ made. IfOk made (IsNodeOf arena.new)) }
    ensures stays { IsNodeOf arena.new node }
{
    let schema = schema(alloc)?;
    match (schema.find(from), schema.find(to)) {
        (Some(from), Some(to)) => Ok(upgrade(arena, &schema, from, node, to)),
        _ => Err("no type".into()),
    }
}

#[test]
fn a_field_of_an_equal_type_is_taken(rt: HostRuntime) -> Result<(), Fail> {
    let mut hasher = XorPair::new();
    let mut arena = Arena::start(rt.alloc(), &mut hasher)?;
    let node = one_and_two(&mut arena)?;
    let made = upgraded(rt.alloc(), &mut arena, "P", "New", node)??;
    // By hand: the first leaf goes one byte to the left on each of two levels.
    assert!(rt; arena.root(made, &mut hasher) == chunk(30, 2));
    Ok(())
}

// The nodes below a pair.
fn halves<H: PairHash>(arena: &Arena<H>, node: NodeId) -> Option<(NodeId, NodeId)>
    requires { IsNodeOf arena.now node }
{
    match arena.node(node) {
        NodeRef::Pair(a, b) => Some((a, b)),
        NodeRef::Leaf(_) => None,
    }
}

#[test]
fn the_same_type_takes_all(rt: HostRuntime) -> Result<(), Fail> {
    let mut arena = Arena::start(rt.alloc(), &mut XorPair::new())?;
    let node = one_and_two(&mut arena)?;
    let grown = arena.len() + 1;
    let made = upgraded(rt.alloc(), &mut arena, "P", "P", node)??;
    assert!(rt; arena.len() == grown);
    assert!(rt; halves(&arena, node).is_some());
    assert!(rt; halves(&arena, made) == halves(&arena, node));
    Ok(())
}

#[test]
fn a_union_takes_no_fields(rt: HostRuntime) -> Result<(), Fail> {
    let mut arena = Arena::start(rt.alloc(), &mut XorPair::new())?;
    let node = one_and_two(&mut arena)?;
    let before = arena.len();
    let into = upgraded(rt.alloc(), &mut arena, "P", "Either", node)?;
    assert!(rt; into == Err(UpgradeFault::NotContainer));
    let of = upgraded(rt.alloc(), &mut arena, "Either", "P", node)?;
    assert!(rt; of == Err(UpgradeFault::NotContainer));
    assert!(rt; arena.len() == before);
    Ok(())
}
