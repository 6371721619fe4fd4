ghost use Rattle.std.specs.Prelude.{IfOk};
ghost use Rattle.ssz_arena.specs.Content.{IsNodeOf};
ghost use Rattle.ssz_schema.specs.Names.{IsName};

use ssz_arena::{Arena, NodeId};
use ssz_chunk::{Chunk, PairHash, XorPair};
use ssz_schema::{Name, Schema, TypeId, is_name};
use ssz_versions::{Versions, Writer, compact};
use std::alloc::{AllocError, Global};
use std::test::Fail;

const FIRST: Writer = Writer(0);

const BASE: Writer = Writer(255);

fn name(alloc: Global, text: &str) -> Result<Name, Fail>
    ensures { IfOk result IsName }
{
    let name = Name::copy_of(alloc, text.as_bytes())?;
    if !is_name(name.as_bytes()) {
        return Err("no name".into());
    }
    Ok(name)
}

fn uint8(alloc: Global) -> Result<TypeId, Fail> {
    let schema = Schema::empty(alloc)?;
    Ok(schema.find("uint8").ok_or("uint8")?)
}

// A chunk of zeros, and the pair of two.
fn zeros(alloc: Global) -> Result<(NodeId, NodeId), AllocError> {
    let arena = Arena::start(alloc, &mut XorPair::new())?;
    Ok((arena.zero(0), arena.zero(1)))
}

// Gives a version another node, if it is there.
fn edit(versions: &mut Versions, name: &Name, node: NodeId) -> bool
    requires { IsName name.now }
{
    let Some(held) = versions.edit(FIRST, name) else {
        return false;
    };
    *held = node;
    true
}

// A version of the first node, forked, and the fork edited to the second one.
fn forked(
    alloc: Global,
    from: &Name,
    to: &Name,
    id: TypeId,
    nodes: (NodeId, NodeId),
) -> Result<Versions, Fail>
    requires from { IsName from.now }
    requires to { IsName to.now }
{
    let mut versions = Versions::empty(alloc)?;
    versions.make(FIRST, from, id, nodes.0)?;
    versions.fork(FIRST, from, to)?;
    if !edit(&mut versions, to, nodes.1) {
        return Err("no version".into());
    }
    Ok(versions)
}

// Whether the first writer has each name's node, and the base has neither.
fn are_apart(
    versions: &Versions,
    from: &Name,
    to: &Name,
    id: TypeId,
    nodes: (NodeId, NodeId),
) -> bool
    requires from { IsName from.now }
    requires to { IsName to.now }
{
    versions.get(FIRST, to) == Some((id, nodes.1))
        && versions.get(FIRST, from) == Some((id, nodes.0))
        && versions.get(BASE, to).is_none()
}

// How many versions the first writer has.
fn count(alloc: Global, versions: &Versions) -> Result<usize, AllocError> {
    let names = versions.names(alloc, FIRST)?;
    Ok(names.as_slice().len())
}

// Whether the version is there until it is dropped.
fn is_dropped(versions: &mut Versions, name: &Name) -> Result<bool, Fail>
    requires { IsName name.now }
{
    let there = versions.get(FIRST, name).is_some();
    versions.drop_version(FIRST, name)?;
    Ok(there && versions.get(FIRST, name).is_none())
}

// Whether the changes of a version and of its fork stay apart, until the version is dropped.
fn stay_apart(alloc: Global, from: &Name, to: &Name) -> Result<bool, Fail>
    requires from { IsName from.now }
    requires to { IsName to.now }
{
    let id = uint8(alloc)?;
    let nodes = zeros(alloc)?;
    let mut versions = forked(alloc, from, to, id, nodes)?;
    if !are_apart(&versions, from, to, id, nodes) || count(alloc, &versions)? != 2 {
        return Ok(false);
    }
    is_dropped(&mut versions, from)
}

// A name that begins with another one, forked, edited and dropped.
#[test]
fn changes(rt: HostRuntime) -> Result<(), Fail> {
    let a = name(rt.alloc(), "a")?;
    let ab = name(rt.alloc(), "ab")?;
    assert!(rt; stay_apart(rt.alloc(), &ab, &a)?);
    Ok(())
}

// A version of a node at the base, adopted by the first writer.
fn adopted(alloc: Global, name: &Name, id: TypeId, node: NodeId) -> Result<Versions, Fail>
    requires { IsName name.now }
{
    let mut versions = Versions::empty(alloc)?;
    versions.reserve(2)?;
    versions.make(BASE, name, id, node)?;
    versions.adopt(BASE, FIRST)?;
    Ok(versions)
}

// Whether the version is then both the first writer's and the base's.
fn is_adopted(alloc: Global, name: &Name) -> Result<bool, Fail>
    requires { IsName name.now }
{
    let id = uint8(alloc)?;
    let (_, node) = zeros(alloc)?;
    let versions = adopted(alloc, name, id, node)?;
    let wanted = Some((id, node));
    Ok(versions.get(FIRST, name) == wanted && versions.get(BASE, name) == wanted)
}

#[test]
fn adopts(rt: HostRuntime) -> Result<(), Fail> {
    let a = name(rt.alloc(), "A")?;
    assert!(rt; is_adopted(rt.alloc(), &a)?);
    Ok(())
}

// Compacts the nodes of one version, and answers whether it is still there.
pub fn compacted<H: PairHash>(
    alloc: Global,
    arena: &mut Arena<H>,
    id: TypeId,
    node: NodeId,
) -> Result<bool, Fail>
    requires { IsNodeOf arena.old node }
{
    let a = name(alloc, "A")?;
    let mut versions = Versions::empty(alloc)?;
    versions.make(FIRST, &a, id, node)?;
    compact(&mut versions, arena)?;
    Ok(versions.get(FIRST, &a).is_some())
}

// A pair and its leaf are kept, and another leaf is not.
#[test]
fn compacts(rt: HostRuntime) -> Result<(), Fail> {
    let id = uint8(rt.alloc())?;
    let mut arena = Arena::start(rt.alloc(), &mut XorPair::new())?;
    arena.reserve(3)?;
    let _other = arena.leaf(Chunk::ZERO);
    let leaf = arena.leaf(Chunk::ZERO);
    let top = arena.pair(leaf, leaf);
    assert!(rt; compacted(rt.alloc(), &mut arena, id, top)?);
    assert!(rt; arena.len() == 129);
    Ok(())
}
