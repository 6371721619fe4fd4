//! Containers of few fields that stand beside one another, by rows of the nodes of their fields.
ghost use Rattle.std.specs.Prelude.{◌≡◌, ◌<◌, ◌≤◌, ◌^◌, false, true, length, map, replicate, All, None, OnOk, Option};
ghost use Rattle.ssz_chunk.specs.Tree.{Tree};
ghost use Rattle.ssz_schema.specs.format.Format.{Format};
ghost use Rattle.ssz_schema.specs.Sizes.{depth, fixed_size, is_variable, part_sizes};
ghost use Rattle.ssz_schema.specs.Unfolding.{type_of, fields_over};
ghost use Rattle.ssz_schema.specs.Legal.{AreLegalFields};
ghost use Rattle.ssz_value.specs.Encoding.{serialize, field_encodings};
ghost use Rattle.ssz_arena.specs.Content.{IsNodeOf, tree_of};
ghost use Rattle.ssz_nodes.specs.Ahead.{IsRowOf};
ghost use Rattle.ssz_nodes.specs.Shown.{ForValue, ForElements, ForFields, ExtendsBytes};
ghost use Rattle.ssz_writing.specs.Leaves.{AreFewFields, AreItemSizes, AreLeafLens, AreShort, IsItemSize, IsLeafLen};
ghost use Rattle.ssz_writing.specs.Offsets.{AddsBytes, Fills, FillsAll, KeepsUpTo, room_of, rooms};

use super::heads::ROOM;
use super::leaves::Few;
use super::offsets::Slot;
use super::writer::Writer;
use ssz_arena::NodeId;
use ssz_chunk::PairHash;
use ssz_nodes::{FieldRows, Top, append_leaf};
use ssz_parts::head_len;
use ssz_schema::TypeId;
use ssz_value::EncodeFault;

impl<'a, H: PairHash> Writer<'a, H> {
    /// Count containers of fixed size, in a full tree.
    #[cycle(append)]
    pub(crate) fn append_containers(
        &self,
        few: &Few<'_>,
        top: Top,
        count: u64,
        out: &mut Vec<u8>,
    ) -> Result<(), EncodeFault>
        requires known { few.now.id < length self.now.schema.now.trees }
        requires fields { AreFewFields self.now.schema.now few.now.id few.now.fields.now }
        requires lens { AreLeafLens self.now.schema.now few.now.fields.now few.now.lens }
        requires short { few.now.short ≡ true
            → AreShort self.now.schema.now few.now.fields.now few.now.lens }
        requires fixed { is_variable (type_of self.now.schema.now few.now.id) ≡ false }
        requires depth { top.depth < 64 }
        requires node { IsNodeOf self.now.arena.now top.node }
        ensures kept { ExtendsBytes out.old.items out.new.items }
        ensures value { let t = type_of self.now.schema.now few.now.id in
            ForElements t top.depth count (tree_of self.now.arena.now top.node)
            (λ vs. AddsBytes (rooms (replicate (length vs) (fixed_size t)) (map (serialize t) vs))
            out.old.items out.new.items result) }
    {
        if few.short {
            return self.append_gathered(few, top, count, out);
        }
        let mut rows = FieldRows::new(top, self.schema.depth(few.id));
        for _i in 0..count {
            rows.refill(self.arena);
            self.append_row_parts(few, rows.row(), out)?;
            rows.pass();
        }
        Ok(())
    }

    /// Count containers of variable size, in a full tree, and the offsets of these, counted from
    /// start, from where their rooms stand.
    #[cycle(append)]
    pub(crate) fn append_rows(
        &self,
        few: &Few<'_>,
        top: Top,
        count: u64,
        start: usize,
        out: &mut Vec<u8>,
    ) -> Result<(), EncodeFault>
        requires known { few.now.id < length self.now.schema.now.trees }
        requires fields { AreFewFields self.now.schema.now few.now.id few.now.fields.now }
        requires lens { AreLeafLens self.now.schema.now few.now.fields.now few.now.lens }
        requires sizes { AreItemSizes self.now.schema.now few.now.fields.now few.now.sizes }
        requires short { few.now.short ≡ true
            → AreShort self.now.schema.now few.now.fields.now few.now.lens }
        requires variable { fixed_size (type_of self.now.schema.now few.now.id) ≡ None }
        requires depth { top.depth < 64 }
        requires node { IsNodeOf self.now.arena.now top.node }
        ensures kept { KeepsUpTo start out.old.items out.new.items }
        ensures value { let t = type_of self.now.schema.now few.now.id in
            ForElements t top.depth count (tree_of self.now.arena.now top.node)
            (λ vs. FillsAll (replicate (length vs) (fixed_size t)) (map (serialize t) vs) start
            out.old.items out.new.items result) }
    {
        let mut rows = FieldRows::new(top, self.schema.depth(few.id));
        let mut heads = [0; ROOM];
        let mut room = start;
        for _i in 0..count {
            rows.refill(self.arena);
            self.append_row_body(few, rows.row(), Slot { start, room }, &mut heads, out)?;
            rows.pass();
            room = room.saturating_add(4);
        }
        Ok(())
    }

    // A container by the nodes of its fields, and its offset into the room that was kept.
    #[cycle(append)]
    fn append_row_body(
        &self,
        few: &Few<'_>,
        row: &[NodeId],
        slot: Slot,
        heads: &mut [u8; ROOM],
        out: &mut Vec<u8>,
    ) -> Result<(), EncodeFault>
        requires known { few.now.id < length self.now.schema.now.trees }
        requires fields { AreFewFields self.now.schema.now few.now.id few.now.fields.now }
        requires lens { AreLeafLens self.now.schema.now few.now.fields.now few.now.lens }
        requires sizes { AreItemSizes self.now.schema.now few.now.fields.now few.now.sizes }
        requires short { few.now.short ≡ true
            → AreShort self.now.schema.now few.now.fields.now few.now.lens }
        requires long { length row.now ≡ 2 ^ depth (type_of self.now.schema.now few.now.id) }
        requires row { All (IsNodeOf self.now.arena.now) row.now }
        requires behind { slot.start ≤ slot.room }
        ensures kept { KeepsUpTo slot.start out.old.items out.new.items }
        ensures value { let t = type_of self.now.schema.now few.now.id in
            (node : Tree) → IsRowOf self.now.arena.now (depth t) node row.now
            → ForValue t node
            (λ v. Fills None (serialize t v) slot.start slot.room out.old.items out.new.items
            result) }
    {
        self.put_end(slot, out)?;
        self.append_row(few, row, heads, out)
    }

    // A container by the nodes of its fields.
    #[cycle(append)]
    fn append_row(
        &self,
        few: &Few<'_>,
        row: &[NodeId],
        heads: &mut [u8; ROOM],
        out: &mut Vec<u8>,
    ) -> Result<(), EncodeFault>
        requires known { few.now.id < length self.now.schema.now.trees }
        requires fields { AreFewFields self.now.schema.now few.now.id few.now.fields.now }
        requires lens { AreLeafLens self.now.schema.now few.now.fields.now few.now.lens }
        requires sizes { AreItemSizes self.now.schema.now few.now.fields.now few.now.sizes }
        requires short { few.now.short ≡ true
            → AreShort self.now.schema.now few.now.fields.now few.now.lens }
        requires long { length row.now ≡ 2 ^ depth (type_of self.now.schema.now few.now.id) }
        requires row { All (IsNodeOf self.now.arena.now) row.now }
        ensures kept { ExtendsBytes out.old.items out.new.items }
        ensures value { let t = type_of self.now.schema.now few.now.id in
            (node : Tree) → IsRowOf self.now.arena.now (depth t) node row.now
            → ForValue t node (λ v. AddsBytes (serialize t v) out.old.items out.new.items result) }
    {
        // Every type of a schema is legal.
        let _legal = self.schema.ty(few.id);
        let start = out.len();
        self.append_row_heads(few, row, heads, out)?;
        self.append_row_bodies(few, row, start, out)
    }

    // Its fixed parts, with room for its offsets.
    #[cycle(append)]
    fn append_row_heads(
        &self,
        few: &Few<'_>,
        row: &[NodeId],
        heads: &mut [u8; ROOM],
        out: &mut Vec<u8>,
    ) -> Result<(), EncodeFault>
        requires known { few.now.id < length self.now.schema.now.trees }
        requires fields { AreFewFields self.now.schema.now few.now.id few.now.fields.now }
        requires lens { AreLeafLens self.now.schema.now few.now.fields.now few.now.lens }
        requires short { few.now.short ≡ true
            → AreShort self.now.schema.now few.now.fields.now few.now.lens }
        requires long { length row.now ≡ 2 ^ depth (type_of self.now.schema.now few.now.id) }
        requires row { All (IsNodeOf self.now.arena.now) row.now }
        ensures kept { ExtendsBytes out.old.items out.new.items }
        ensures value { let fs = fields_over self.now.schema.now.trees few.now.fields.now in
            let d = depth (type_of self.now.schema.now few.now.id) in
            (node : Tree) → IsRowOf self.now.arena.now d node row.now → ForFields fs d node
            (λ vs. AddsBytes (rooms (part_sizes fs) (field_encodings fs vs)) out.old.items
            out.new.items result) }
    {
        if !few.short {
            return self.append_row_parts(few, row, out);
        }
        let end = self.gather_heads(few, row, 0, heads);
        out.extend_from_slice(&heads[..end])?;
        Ok(())
    }

    // The same, field by field, where a field of fixed size may be no leaf.
    #[cycle(append)]
    fn append_row_parts(
        &self,
        few: &Few<'_>,
        row: &[NodeId],
        out: &mut Vec<u8>,
    ) -> Result<(), EncodeFault>
        requires known { few.now.id < length self.now.schema.now.trees }
        requires fields { AreFewFields self.now.schema.now few.now.id few.now.fields.now }
        requires lens { AreLeafLens self.now.schema.now few.now.fields.now few.now.lens }
        requires long { length row.now ≡ 2 ^ depth (type_of self.now.schema.now few.now.id) }
        requires row { All (IsNodeOf self.now.arena.now) row.now }
        ensures kept { ExtendsBytes out.old.items out.new.items }
        ensures value { let fs = fields_over self.now.schema.now.trees few.now.fields.now in
            let d = depth (type_of self.now.schema.now few.now.id) in
            (node : Tree) → IsRowOf self.now.arena.now d node row.now → ForFields fs d node
            (λ vs. AddsBytes (rooms (part_sizes fs) (field_encodings fs vs)) out.old.items
            out.new.items result) }
    {
        for (i, field) in few.fields.iter().enumerate() {
            self.append_part(field.1, few.lens[i], row[i], out)?;
        }
        Ok(())
    }

    // Its variable parts, and the offsets of these, counted from start, from where its fixed parts
    // stand.
    #[cycle(append)]
    fn append_row_bodies(
        &self,
        few: &Few<'_>,
        row: &[NodeId],
        start: usize,
        out: &mut Vec<u8>,
    ) -> Result<(), EncodeFault>
        requires known { few.now.id < length self.now.schema.now.trees }
        requires fields { AreFewFields self.now.schema.now few.now.id few.now.fields.now }
        requires sizes { AreItemSizes self.now.schema.now few.now.fields.now few.now.sizes }
        requires long { length row.now ≡ 2 ^ depth (type_of self.now.schema.now few.now.id) }
        requires row { All (IsNodeOf self.now.arena.now) row.now }
        ensures kept { KeepsUpTo start out.old.items out.new.items }
        ensures value { let fs = fields_over self.now.schema.now.trees few.now.fields.now in
            let d = depth (type_of self.now.schema.now few.now.id) in
            (format : Format) → AreLegalFields format fs
            → (node : Tree) → IsRowOf self.now.arena.now d node row.now
            → ForFields fs d node
            (λ vs. FillsAll (part_sizes fs) (field_encodings fs vs) start out.old.items
            out.new.items result) }
    {
        let mut room = start;
        for (i, field) in few.fields.iter().enumerate() {
            let slot = Slot { start, room };
            self.append_part_body(field.1, few.sizes[i], row[i], slot, out)?;
            room = room.saturating_add(head_len(self.schema.fixed_size(field.1)) as usize);
        }
        Ok(())
    }

    // The fixed part of a value, or room for its offset: the first len bytes of its leaf, where it
    // is one and so many are told.
    #[cycle(append)]
    fn append_part(
        &self,
        id: TypeId,
        len: usize,
        node: NodeId,
        out: &mut Vec<u8>,
    ) -> Result<(), EncodeFault>
        requires known { id < length self.now.schema.now.trees }
        requires node { IsNodeOf self.now.arena.now node }
        requires len { IsLeafLen (type_of self.now.schema.now id) len }
        ensures kept { ExtendsBytes out.old.items out.new.items }
        ensures value { let t = type_of self.now.schema.now id in
            ForValue t (tree_of self.now.arena.now node)
            (λ v. AddsBytes (room_of (fixed_size t) (serialize t v)) out.old.items out.new.items
            result) }
    {
        if len > 0 {
            append_leaf(self.arena, len, node, out)?;
            return Ok(());
        }
        match self.schema.fixed_size(id) {
            Some(_) => self.append_value(id, node, out),
            None => {
                out.extend_from_slice(&[0; 4])?;
                Ok(())
            }
        }
    }

    // The variable part of a value, if it has one, and its offset into the room that was kept.
    #[cycle(append)]
    fn append_part_body(
        &self,
        id: TypeId,
        size: usize,
        node: NodeId,
        slot: Slot,
        out: &mut Vec<u8>,
    ) -> Result<(), EncodeFault>
        requires known { id < length self.now.schema.now.trees }
        requires node { IsNodeOf self.now.arena.now node }
        requires size { IsItemSize (type_of self.now.schema.now id) size }
        requires behind { slot.start ≤ slot.room }
        ensures kept { KeepsUpTo slot.start out.old.items out.new.items }
        ensures value { let t = type_of self.now.schema.now id in
            ForValue t (tree_of self.now.arena.now node)
            (λ v. Fills (fixed_size t)
            (serialize t v) slot.start slot.room out.old.items out.new.items
            result) }
    {
        match self.schema.fixed_size(id) {
            Some(_) => Ok(()),
            None => {
                self.put_end(slot, out)?;
                self.append_variable(id, size, node, out)
            }
        }
    }

    // A value, by the chunks of its items where it is told to be a list of such of this size.
    #[cycle(append)]
    fn append_variable(
        &self,
        id: TypeId,
        size: usize,
        node: NodeId,
        out: &mut Vec<u8>,
    ) -> Result<(), EncodeFault>
        requires known { id < length self.now.schema.now.trees }
        requires node { IsNodeOf self.now.arena.now node }
        requires size { IsItemSize (type_of self.now.schema.now id) size }
        ensures kept { ExtendsBytes out.old.items out.new.items }
        ensures value { let t = type_of self.now.schema.now id in
            ForValue t (tree_of self.now.arena.now node)
            (λ v. AddsBytes (serialize t v) out.old.items out.new.items result) }
    {
        if size > 0 {
            return self.append_items(id, size, node, out);
        }
        self.append_value(id, node, out)
    }
}
