//! The fixed parts of a container of few fields, gathered beside one another.
ghost use Rattle.std.specs.Prelude.{◌≡◌, ◌+◌, ◌<◌, ◌≤◌, ◌^◌, ◌++◌, false, length, map, replicate, take, All, IfOk, None, OnOk};
ghost use Rattle.ssz_chunk.specs.Tree.{Tree};
ghost use Rattle.ssz_schema.specs.Types.{SszType};
ghost use Rattle.ssz_schema.specs.Sizes.{depth, fixed_size, is_variable, part_sizes};
ghost use Rattle.ssz_schema.specs.Unfolding.{type_of, fields_over};
ghost use Rattle.ssz_value.specs.Encoding.{serialize, field_encodings};
ghost use Rattle.ssz_arena.specs.Content.{IsNodeOf, tree_of};
ghost use Rattle.ssz_nodes.specs.Ahead.{IsRowOf};
ghost use Rattle.ssz_nodes.specs.Shown.{ForValue, ForElements, ForFields, ExtendsBytes};
ghost use Rattle.ssz_writing.specs.Leaves.{AreFewFields, AreLeafLens, AreShort, IsLeafLen};
ghost use Rattle.ssz_writing.specs.Offsets.{AddsBytes, room_of, rooms};

use super::leaves::Few;
use super::writer::Writer;
use ssz_arena::NodeId;
use ssz_chunk::PairHash;
use ssz_nodes::{FieldRows, NEAR, Top, chunk_of};
use ssz_value::EncodeFault;
use std::alloc::AllocError;

/// Room for the fixed parts of a container: a chunk for each of its fields at most.
pub(crate) const ROOM: usize = 32 * NEAR;

// Room for the fixed parts of as many containers as are appended at once.
const ROOMS: usize = 4 * ROOM;

impl<'a, H: PairHash> Writer<'a, H> {
    /// Count containers whose fields are leaves, in a full tree. They are gathered first, so that
    /// many are appended at once. It is a function of its own, so that the stack has room for them
    /// only here.
    #[inline(never)]
    pub(crate) fn append_gathered(
        &self,
        few: &Few<'_>,
        top: Top,
        count: u64,
        out: &mut Vec<u8>,
    ) -> Result<(), EncodeFault>
        requires known { few.now.id < length self.now.schema.now.trees }
        requires fields { AreFewFields self.now.schema.now few.now.id few.now.fields.now }
        requires lens { AreLeafLens self.now.schema.now few.now.fields.now few.now.lens }
        requires short { AreShort self.now.schema.now few.now.fields.now few.now.lens }
        requires fixed { is_variable (type_of self.now.schema.now few.now.id) ≡ false }
        requires depth { top.depth < 64 }
        requires node { IsNodeOf self.now.arena.now top.node }
        ensures kept { ExtendsBytes out.old.items out.new.items }
        ensures value { let t = type_of self.now.schema.now few.now.id in
            ForElements t top.depth count (tree_of self.now.arena.now top.node)
            (λ vs. AddsBytes (rooms (replicate (length vs) (fixed_size t)) (map (serialize t) vs))
            out.old.items out.new.items result) }
    {
        let mut rows = FieldRows::new(top, self.schema.depth(few.id));
        let mut heads = [0; ROOMS];
        let mut len = 0;
        for _i in 0..count {
            len = append_full(&heads, len, out)?;
            rows.refill(self.arena);
            len = self.gather_heads(few, rows.row(), len, &mut heads);
            rows.pass();
        }
        out.extend_from_slice(&heads[..len])?;
        Ok(())
    }

    /// Gathers the fixed parts of a container by the nodes of its fields, with room for its
    /// offsets, behind what was gathered before, and tells where they end.
    #[inline(always)]
    pub(crate) fn gather_heads(
        &self,
        few: &Few<'_>,
        row: &[NodeId],
        at: usize,
        heads: &mut [u8],
    ) -> usize
        requires fields { AreFewFields self.now.schema.now few.now.id few.now.fields.now }
        requires lens { AreLeafLens self.now.schema.now few.now.fields.now few.now.lens }
        requires short { AreShort self.now.schema.now few.now.fields.now few.now.lens }
        requires long { length row.now ≡ 2 ^ depth (type_of self.now.schema.now few.now.id) }
        requires row { All (IsNodeOf self.now.arena.now) row.now }
        requires room { at + 256 ≤ length heads.old }
        ensures long { length heads.new ≡ length heads.old }
        ensures within { result ≤ at + 256 }
        ensures value { let fs = fields_over self.now.schema.now.trees few.now.fields.now in
            let d = depth (type_of self.now.schema.now few.now.id) in
            (node : Tree) → IsRowOf self.now.arena.now d node row.now → ForFields fs d node
            (λ vs. take result heads.new
            ≡ take at heads.old ++ rooms (part_sizes fs) (field_encodings fs vs)) }
    {
        let mut end = at;
        for i in 0..few.fields.len() {
            end = self.put_head(few.lens[i], row[i], end, heads);
        }
        end
    }

    // Puts the first len bytes of a leaf behind what was gathered before, or room for an offset
    // where len is 0, and tells where they end. A leaf is copied whole, so that it is known how
    // many bytes are copied: what is not of the value lies where the next part is put.
    #[inline(always)]
    fn put_head(&self, len: usize, node: NodeId, at: usize, heads: &mut [u8]) -> usize
        requires node { IsNodeOf self.now.arena.now node }
        requires len { len ≤ 32 }
        requires room { at + 32 ≤ length heads.old }
        ensures long { length heads.new ≡ length heads.old }
        ensures end { result ≤ at + 32 }
        ensures value { (t : SszType) → IsLeafLen t len → (len ≡ 0 → fixed_size t ≡ None)
            → ForValue t (tree_of self.now.arena.now node)
            (λ v. take result heads.new
            ≡ take at heads.old ++ room_of (fixed_size t) (serialize t v)) }
    {
        if len > 0 {
            heads[at..at + 32].copy_from_slice(&chunk_of(self.arena, node).0);
            return at + len;
        }
        heads[at..at + 4].copy_from_slice(&[0; 4]);
        at + 4
    }
}

// Appends what was gathered, where there may be no room for a container more, and tells where the
// next is to begin.
#[inline(always)]
fn append_full(heads: &[u8; ROOMS], len: usize, out: &mut Vec<u8>) -> Result<usize, AllocError>
    requires { len ≤ 1024 }
    ensures kept { ExtendsBytes out.old.items out.new.items }
    ensures room { IfOk result (λ at. at + 256 ≤ 1024) }
    ensures bytes { IfOk result
        (λ at. out.new.items ++ take at heads.now ≡ out.old.items ++ take len heads.now) }
{
    if len <= ROOMS - ROOM {
        return Ok(len);
    }
    out.extend_from_slice(&heads[..len])?;
    Ok(0)
}
