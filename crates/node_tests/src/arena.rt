ghost use Rattle.std.specs.Prelude.{All, IfOk, IfSome};
ghost use Rattle.ssz_arena.specs.Content.{IsNodeOf, KeepsNodes};

use super::chunks::{beginning, chunk};
use ssz_arena::{Arena, NodeId};
use ssz_chunk::{Chunk, PairHash, ShaPair, XorPair};
use ssz_gindex::Gindex;
use std::alloc::AllocError;
use std::test::Fail;

// The tree with a leaf that begins with this byte at an index, if something is there.
fn edited<H: PairHash>(
    arena: &mut Arena<H>,
    top: NodeId,
    number: u128,
    first: u8,
) -> Result<Option<NodeId>, AllocError>
    requires { IsNodeOf arena.old top }
    ensures made { IfOk result (λ made. IfSome made (IsNodeOf arena.new)) }
    ensures keeps { IfOk result (λ _. KeepsNodes arena.old arena.new) }
{
    let Some(index) = Gindex::new(number) else {
        return Ok(None);
    };
    arena.reserve(index.levels() as usize + 1)?;
    let leaf = arena.leaf(beginning(first));
    Ok(arena.replace(top, index, leaf))
}

// Whether the root of the node is this one, and so many pairs were hashed by then.
fn has_root<H: PairHash>(
    arena: &mut Arena<H>,
    node: NodeId,
    hasher: &mut H,
    root: &Chunk,
    pairs: u64,
) -> bool
    requires { IsNodeOf arena.old node }
    ensures { KeepsNodes arena.old arena.new }
{
    arena.root(node, hasher) == *root && hasher.count() == pairs
}

// Expected roots in these tests: hashlib of Python, over pairs of trees written out.

#[test]
fn zero_trees(rt: HostRuntime) -> Result<(), Fail> {
    let mut hasher = ShaPair::new();
    let mut arena = Arena::start(rt.alloc(), &mut hasher)?;
    assert!(rt; arena.len() == 127);
    let (one, deep) = (arena.zero(1), arena.zero(126));
    let root = chunk(
        0xf5a5fd42d16a20302798ef6ed309979b,
        0x43003d2320d9f0e8ea9831a92759fb4b,
    );
    assert!(rt; has_root(&mut arena, one, &mut hasher, &root, 126));
    let root = chunk(
        0xad484a007384e0b23f629cd335620edb,
        0xae313dc07a31ca58fe1d97fac2ca0b55,
    );
    assert!(rt; has_root(&mut arena, deep, &mut hasher, &root, 126));
    Ok(())
}

// A tree that has another one in three places, and its half that has it in two.
fn shared<H: PairHash>(arena: &mut Arena<H>) -> Result<(NodeId, NodeId), AllocError>
    ensures top { IfOk result (λ nodes. IsNodeOf arena.new nodes.0) }
    ensures middle { IfOk result (λ nodes. IsNodeOf arena.new nodes.1) }
{
    arena.reserve(5)?;
    let left = arena.leaf(beginning(1));
    let right = arena.leaf(beginning(2));
    let below = arena.pair(left, right);
    let middle = arena.pair(below, below);
    Ok((arena.pair(middle, below), middle))
}

#[test]
fn shared_tree_is_hashed_once(rt: HostRuntime) -> Result<(), Fail> {
    let mut hasher = ShaPair::new();
    let mut arena = Arena::start(rt.alloc(), &mut hasher)?;
    let (top, middle) = shared(&mut arena)?;
    assert!(rt; arena.cached(top).is_none());
    let root = chunk(
        0x2db216d903d06d33bc4a257a3b51df0e,
        0xa22715137db53949995e7ac36f3e6b78,
    );
    assert!(rt; has_root(&mut arena, top, &mut hasher, &root, 126 + 3));
    assert!(rt; has_root(&mut arena, top, &mut hasher, &root, 126 + 3));
    assert!(rt; arena.cached(middle).is_some());
    Ok(())
}

#[test]
fn edits_leave_the_old_tree(rt: HostRuntime) -> Result<(), Fail> {
    let mut hasher = ShaPair::new();
    let mut arena = Arena::start(rt.alloc(), &mut hasher)?;
    let old = arena.zero(126);
    let top = edited(&mut arena, old, (1 << 126) + 5, 9)?.ok_or("place 5 of 2^126")?;
    assert!(rt; arena.len() == 127 + 127);
    let root = chunk(
        0x7189d7705800140409f04bb664ec67a8,
        0xac9cfe04bf59bd419d2ccb41fa728f3d,
    );
    assert!(rt; has_root(&mut arena, top, &mut hasher, &root, 126 + 126));
    let root = chunk(
        0xad484a007384e0b23f629cd335620edb,
        0xae313dc07a31ca58fe1d97fac2ca0b55,
    );
    assert!(rt; has_root(&mut arena, old, &mut hasher, &root, 126 + 126));
    Ok(())
}

#[test]
fn edits_of_a_leaf(rt: HostRuntime) -> Result<(), Fail> {
    let mut hasher = ShaPair::new();
    let mut arena = Arena::start(rt.alloc(), &mut hasher)?;
    let old = arena.zero(0);
    let top = edited(&mut arena, old, 1, 3)?.ok_or("the whole tree")?;
    assert!(rt; has_root(&mut arena, top, &mut hasher, &beginning(3), 126));
    assert!(rt; edited(&mut arena, top, 2, 4)?.is_none());
    assert!(rt; edited(&mut arena, top, 3, 4)?.is_none());
    assert!(rt; hasher.count() == 126);
    Ok(())
}

// A tree of depth 8 after a thousand edits, each with its root: edit i lets place i % 256 begin
// with i % 251.
fn edited_often(arena: &mut Arena<XorPair>, hasher: &mut XorPair) -> Result<NodeId, AllocError>
    ensures { IfOk result (IsNodeOf arena.new) }
{
    let mut top = arena.zero(8);
    for i in 0..1000u32 {
        let Some(made) = edited(arena, top, u128::from(256 + i % 256), (i % 251) as u8)? else {
            return Ok(top);
        };
        arena.root(made, hasher);
        top = made;
    }
    Ok(top)
}

// The root of the first of these nodes.
fn first_root<H: PairHash>(arena: &mut Arena<H>, ids: &[NodeId], hasher: &mut H) -> Option<Chunk>
    requires { All (IsNodeOf arena.old) ids.now }
{
    let first = ids.first()?;
    Some(arena.root(*first, hasher))
}

// How many nodes are left where this one is kept, and its root there.
fn compacted(
    arena: &Arena<XorPair>,
    top: NodeId,
    hasher: &mut XorPair,
) -> Result<(usize, Option<Chunk>), AllocError>
    requires { IsNodeOf arena.now top }
{
    let mut small = arena.compact(&[top])?;
    let root = first_root(&mut small.arena, &small.ids, hasher);
    Ok((small.arena.len(), root))
}

#[test]
fn compaction_leaves_what_is_reached(rt: HostRuntime) -> Result<(), Fail> {
    let mut hasher = XorPair::new();
    let mut arena = Arena::start(rt.alloc(), &mut hasher)?;
    let top = edited_often(&mut arena, &mut hasher)?;
    assert!(rt; arena.len() == 127 + 9 * 1000);
    let count = hasher.count();
    let (left, root) = compacted(&arena, top, &mut hasher)?;
    let expected = chunk(0x0e << 120, 0x00000000000000000ff5f9fde1de985a);
    assert!(rt; left == 127 + 511);
    assert!(rt; root == Some(expected));
    assert!(rt; hasher.count() == count);
    Ok(())
}

#[test]
fn room_is_made_once(rt: HostRuntime) -> Result<(), Fail> {
    let mut hasher = XorPair::new();
    let mut arena = Arena::start(rt.alloc(), &mut hasher)?;
    arena.reserve_exact(5)?;
    arena.reserve(5)?;
    assert!(rt; arena.spare() == 5);
    // 2^31 nodes are the most, and 127 are there.
    assert!(rt; arena.reserve((1 << 31) - 126).is_err());
    Ok(())
}

// The tree of depth 8 with a leaf at place 77, and its part at place 4 of 2^4.
fn tree_and_part<H: PairHash>(arena: &mut Arena<H>) -> Result<(NodeId, NodeId), Fail>
    ensures top { IfOk result (λ nodes. IsNodeOf arena.new nodes.0) }
    ensures part { IfOk result (λ nodes. IsNodeOf arena.new nodes.1) }
{
    let old = arena.zero(8);
    let top = edited(arena, old, 256 + 77, 9)?.ok_or("place 77 of 2^8")?;
    let index = Gindex::new(16 + 4).ok_or("not 0")?;
    let part = arena.down(top, index).ok_or("place 4 of 2^4")?;
    Ok((top, part))
}

#[test]
fn below_a_hashed_node_all_is_hashed(rt: HostRuntime) -> Result<(), Fail> {
    let mut hasher = XorPair::new();
    let mut arena = Arena::start(rt.alloc(), &mut hasher)?;
    let (top, part) = tree_and_part(&mut arena)?;
    assert!(rt; arena.cached(part).is_none());
    arena.root(top, &mut hasher);
    assert!(rt; arena.cached(part).is_some());
    Ok(())
}
