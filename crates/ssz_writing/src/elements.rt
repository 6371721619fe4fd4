//! The elements of vectors and lists.
ghost use Rattle.std.specs.Prelude.{◌≡◌, ◌<◌, ◌≤◌, length, map, replicate, None, OnOk, Option};
ghost use Rattle.ssz_schema.specs.Sizes.{basic_size, fixed_size};
ghost use Rattle.ssz_schema.specs.Unfolding.{type_of};
ghost use Rattle.ssz_value.specs.Encoding.{serialize, joined_alike};
ghost use Rattle.ssz_arena.specs.Content.{IsNodeOf, tree_of};
ghost use Rattle.ssz_nodes.specs.Shown.{ForElements, ExtendsBytes};
ghost use Rattle.ssz_writing.specs.Offsets.{AddsBytes, FillsAll, KeepsUpTo, rooms};

use super::leaves::Few;
use super::offsets::{Slot, append_rooms};
use super::writer::Writer;
use ssz_chunk::PairHash;
use ssz_nodes::{Basic, Places, Top};
use ssz_parts::head_len;
use ssz_schema::TypeId;
use ssz_value::EncodeFault;

impl<'a, H: PairHash> Writer<'a, H> {
    /// Count elements in a full tree.
    #[cycle(append)]
    pub(crate) fn append_sequence(
        &self,
        elem: TypeId,
        top: Top,
        count: u64,
        out: &mut Vec<u8>,
    ) -> Result<(), EncodeFault>
        requires known { elem < length self.now.schema.now.trees }
        requires depth { top.depth < 64 }
        requires node { IsNodeOf self.now.arena.now top.node }
        ensures kept { ExtendsBytes out.old.items out.new.items }
        ensures value { let t = type_of self.now.schema.now elem in
            ForElements t top.depth count (tree_of self.now.arena.now top.node)
            (λ vs. AddsBytes (joined_alike (fixed_size t) (map (serialize t) vs)) out.old.items
            out.new.items
            result) }
    {
        match Basic::of(self.schema, elem) {
            Some(basic) => {
                let len = u128::from(count) * basic.size() as u128;
                self.append_packed(top, len, out)
            }
            None => {
                // Every type of a schema is legal.
                let _legal = self.schema.ty(elem);
                let head = head_len(self.schema.fixed_size(elem));
                self.make_room(u128::from(count) * u128::from(head), out)?;
                let start = out.len();
                self.append_heads(elem, top, count, out)?;
                self.append_bodies(elem, top, count, start, out)
            }
        }
    }

    // The fixed parts of count elements of a composite type, with room for their offsets.
    #[cycle(append)]
    fn append_heads(
        &self,
        elem: TypeId,
        top: Top,
        count: u64,
        out: &mut Vec<u8>,
    ) -> Result<(), EncodeFault>
        requires known { elem < length self.now.schema.now.trees }
        requires composite { basic_size (type_of self.now.schema.now elem) ≡ None }
        requires depth { top.depth < 64 }
        requires node { IsNodeOf self.now.arena.now top.node }
        ensures kept { ExtendsBytes out.old.items out.new.items }
        ensures value { let t = type_of self.now.schema.now elem in
            ForElements t top.depth count (tree_of self.now.arena.now top.node)
            (λ vs. AddsBytes (rooms (replicate (length vs) (fixed_size t)) (map (serialize t) vs))
            out.old.items out.new.items result) }
    {
        if self.schema.is_variable(elem) {
            return append_rooms(count, out);
        }
        if let Some(few) = Few::of(self.schema, elem) {
            return self.append_containers(&few, top, count, out);
        }
        let mut places = Places::new(top);
        for _i in 0..count {
            let part = places.next(self.arena);
            self.append_value(elem, part, out)?;
        }
        Ok(())
    }

    // The variable parts of count elements of a composite type, and the offsets of these, counted
    // from start, from where their rooms stand.
    #[cycle(append)]
    fn append_bodies(
        &self,
        elem: TypeId,
        top: Top,
        count: u64,
        start: usize,
        out: &mut Vec<u8>,
    ) -> Result<(), EncodeFault>
        requires known { elem < length self.now.schema.now.trees }
        requires composite { basic_size (type_of self.now.schema.now elem) ≡ None }
        requires depth { top.depth < 64 }
        requires node { IsNodeOf self.now.arena.now top.node }
        ensures kept { KeepsUpTo start out.old.items out.new.items }
        ensures value { let t = type_of self.now.schema.now elem in
            ForElements t top.depth count (tree_of self.now.arena.now top.node)
            (λ vs. FillsAll (replicate (length vs) (fixed_size t)) (map (serialize t) vs) start
            out.old.items out.new.items result) }
    {
        if let Some(_) = self.schema.fixed_size(elem) {
            return Ok(());
        }
        if let Some(few) = Few::of(self.schema, elem) {
            return self.append_rows(&few, top, count, start, out);
        }
        let mut places = Places::new(top);
        let mut room = start;
        for _i in 0..count {
            let part = places.next(self.arena);
            self.append_body(elem, part, Slot { start, room }, out)?;
            room = room.saturating_add(4);
        }
        Ok(())
    }
}
