// Nodes of an arena as what a value's tree is made into.
ghost use Rattle.std.specs.Prelude.{◌≡◌};

use super::builder::Builder;
use super::leaves::leaf_node;
use super::packed::{bits_node, packed_node};
use super::packed_values::{bit_values_node, packed_values_node};
use ssz_arena::{Arena, NodeId};
use ssz_chunk::{Chunk, PairHash};
use ssz_making::Maker;
use ssz_schema::{Schema, TypeId};
use ssz_value::Value;

/// Makes nodes in an arena, in the room that was taken before.
#[derive(Drop)]
pub(crate) struct Growing<'a, H: PairHash> {
    pub(crate) arena: &'a mut Arena<H>,
}

impl<'a, H: PairHash> Maker for Growing<'a, H> {
    ghost use Rattle.std.specs.Prelude.{◌≡◌, ◌^◌, ◌<◌, ◌≤◌};
    ghost use Rattle.ssz_tree.specs.Added.{MakesNode};
    ghost use Rattle.ssz_tree.specs.Making.{PushesNodes};
    ghost use Rattle.ssz_tree.specs.RoomLaws.{less_room, next_room};

    type Out = NodeId;

    type Rows = Builder;

    ghost room = { λ now nodes. nodes ≤ now.arena.now.spare };

    ghost made = { λ start now part out. (now.arena.ghost_name ≡ start.arena.ghost_name)
        × MakesNode start.arena.now now.arena.now part out };

    ghost gathered = { λ start now d count parts rows.
        (now.arena.ghost_name ≡ start.arena.ghost_name)
        × PushesNodes start.arena.now now.arena.now d parts rows × (count < 2 ^ 64) };

    ghost room_less = { λ now n m less room. less_room now.arena.now n m less room };

    ghost room_next = { λ start now d n before rest one rows pushed room.
        next_room start.arena.now now.arena.now d before rest one rows pushed.1 room };

    fn leaf(&mut self, chunk: &Chunk) -> NodeId {
        leaf_node(self.arena, chunk)
    }

    fn none(&mut self) -> NodeId {
        self.arena.zero(0)
    }

    fn join(&mut self, out: NodeId, chunk: &Chunk) -> NodeId {
        let leaf = leaf_node(self.arena, chunk);
        self.arena.pair(out, leaf)
    }

    fn start(&self, depth: u32, _count: u64) -> Builder {
        Builder::new(self.arena, depth)
    }

    fn push(&mut self, rows: &mut Builder, out: &NodeId) {
        rows.push(self.arena, *out);
    }

    fn repeat(&mut self, _rows: &mut Builder, _out: &NodeId, _more: u64) -> u64 {
        0
    }

    #[inline(always)]
    fn finish(&mut self, rows: Builder) -> NodeId {
        rows.finish(self.arena)
    }

    fn packed(&mut self, depth: u32, bytes: &[u8]) -> NodeId {
        packed_node(self.arena, depth, bytes)
    }

    fn bits(&mut self, depth: u32, len: u64, bytes: &[u8]) -> NodeId {
        bits_node(self.arena, depth, len, bytes)
    }

    fn packed_values(&mut self, size: usize, depth: u32, parts: &[Value]) -> NodeId {
        packed_values_node(self.arena, size, depth, parts)
    }

    fn bit_values(&mut self, depth: u32, bits: &[bool]) -> NodeId {
        bit_values_node(self.arena, depth, bits)
    }

    fn ahead(
        &mut self,
        _rows: &mut Builder,
        _schema: &Schema,
        _elem: TypeId,
        _count: u64,
        _bytes: &[u8],
    ) -> u64 {
        0
    }
}
