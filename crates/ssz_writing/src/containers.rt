//! The fields of a container that is come down to alone.
ghost use Rattle.std.specs.Prelude.{◌≡◌, ◌<◌, ◌≤◌, length, OnOk, Option};
ghost use Rattle.std.specs.List.{AllByRecursion};
ghost use Rattle.ssz_schema.specs.format.Format.{Format};
ghost use Rattle.ssz_schema.specs.Types.{container};
ghost use Rattle.ssz_schema.specs.Sizes.{fixed_size, part_sizes};
ghost use Rattle.ssz_schema.specs.Unfolding.{type_of, fields_over};
ghost use Rattle.ssz_schema.specs.Legal.{AreLegalFields};
ghost use Rattle.ssz_value.specs.Encoding.{serialize, joined, field_encodings};
ghost use Rattle.ssz_arena.specs.Content.{IsNodeOf, tree_of};
ghost use Rattle.ssz_nodes.specs.Shown.{ForPlace, ForFields, ExtendsBytes};
ghost use Rattle.ssz_writing.specs.Offsets.{AddsBytes, Fills, FillsAll, KeepsUpTo, room_of, rooms};

use super::offsets::Slot;
use super::writer::Writer;
use ssz_chunk::PairHash;
use ssz_nodes::{Top, node_of_place};
use ssz_parts::head_len;
use ssz_schema::{Name, TypeId};
use ssz_value::EncodeFault;

impl<'a, H: PairHash> Writer<'a, H> {
    /// These fields, whose types stand before id, in a full tree.
    #[cycle(append)]
    pub(crate) fn append_fields(
        &self,
        id: TypeId,
        fields: &[(Name, TypeId)],
        top: Top,
        out: &mut Vec<u8>,
    ) -> Result<(), EncodeFault>
        requires known { id < length self.now.schema.now.trees }
        requires form { type_of self.now.schema.now id
            ≡ container (fields_over self.now.schema.now.trees fields.now) }
        requires before { AllByRecursion (λ part. part.1 < id) fields.now }
        requires depth { top.depth < 64 }
        requires node { IsNodeOf self.now.arena.now top.node }
        ensures kept { ExtendsBytes out.old.items out.new.items }
        ensures value { let fs = fields_over self.now.schema.now.trees fields.now in
            (format : Format) → AreLegalFields format fs
            → ForFields fs top.depth (tree_of self.now.arena.now top.node)
            (λ vs. AddsBytes (joined (part_sizes fs) (field_encodings fs vs)) out.old.items
            out.new.items result) }
    {
        let start = out.len();
        self.append_field_heads(id, fields, top, out)?;
        if let Some(_) = self.schema.fixed_size(id) {
            return Ok(());
        }
        self.append_field_bodies(id, fields, top, start, out)
    }

    // The fixed parts of fields, with room for their offsets.
    #[cycle(append)]
    fn append_field_heads(
        &self,
        id: TypeId,
        fields: &[(Name, TypeId)],
        top: Top,
        out: &mut Vec<u8>,
    ) -> Result<(), EncodeFault>
        requires known { id < length self.now.schema.now.trees }
        requires before { AllByRecursion (λ part. part.1 < id) fields.now }
        requires depth { top.depth < 64 }
        requires node { IsNodeOf self.now.arena.now top.node }
        ensures kept { ExtendsBytes out.old.items out.new.items }
        ensures value { let fs = fields_over self.now.schema.now.trees fields.now in
            ForFields fs top.depth (tree_of self.now.arena.now top.node)
            (λ vs. AddsBytes (rooms (part_sizes fs) (field_encodings fs vs)) out.old.items
            out.new.items result) }
    {
        for (i, field) in fields.iter().enumerate() {
            self.append_field_head(field.1, top, i, out)?;
        }
        Ok(())
    }

    // The fixed part of field i, or room for its offset.
    #[cycle(append)]
    fn append_field_head(
        &self,
        id: TypeId,
        top: Top,
        i: usize,
        out: &mut Vec<u8>,
    ) -> Result<(), EncodeFault>
        requires known { id < length self.now.schema.now.trees }
        requires depth { top.depth < 64 }
        requires node { IsNodeOf self.now.arena.now top.node }
        ensures kept { ExtendsBytes out.old.items out.new.items }
        ensures value { let t = type_of self.now.schema.now id in
            ForPlace t top.depth i (tree_of self.now.arena.now top.node)
            (λ v. AddsBytes (room_of (fixed_size t) (serialize t v)) out.old.items out.new.items
            result) }
    {
        match self.schema.fixed_size(id) {
            Some(_) => {
                let part = node_of_place(self.arena, top, i);
                self.append_value(id, part, out)
            }
            None => {
                out.extend_from_slice(&[0; 4])?;
                Ok(())
            }
        }
    }

    // The variable parts of fields, and the offsets of these, counted from start, from where the
    // fixed parts stand.
    #[cycle(append)]
    fn append_field_bodies(
        &self,
        id: TypeId,
        fields: &[(Name, TypeId)],
        top: Top,
        start: usize,
        out: &mut Vec<u8>,
    ) -> Result<(), EncodeFault>
        requires known { id < length self.now.schema.now.trees }
        requires before { AllByRecursion (λ part. part.1 < id) fields.now }
        requires depth { top.depth < 64 }
        requires node { IsNodeOf self.now.arena.now top.node }
        ensures kept { KeepsUpTo start out.old.items out.new.items }
        ensures value { let fs = fields_over self.now.schema.now.trees fields.now in
            (format : Format) → AreLegalFields format fs
            → ForFields fs top.depth (tree_of self.now.arena.now top.node)
            (λ vs. FillsAll (part_sizes fs) (field_encodings fs vs) start out.old.items
            out.new.items result) }
    {
        let mut room = start;
        for (i, field) in fields.iter().enumerate() {
            self.append_field_body(field.1, top, i, Slot { start, room }, out)?;
            room = room.saturating_add(head_len(self.schema.fixed_size(field.1)) as usize);
        }
        Ok(())
    }

    // The variable part of field i, and its offset into the room that was kept.
    #[cycle(append)]
    fn append_field_body(
        &self,
        id: TypeId,
        top: Top,
        i: usize,
        slot: Slot,
        out: &mut Vec<u8>,
    ) -> Result<(), EncodeFault>
        requires known { id < length self.now.schema.now.trees }
        requires depth { top.depth < 64 }
        requires node { IsNodeOf self.now.arena.now top.node }
        requires behind { slot.start ≤ slot.room }
        ensures kept { KeepsUpTo slot.start out.old.items out.new.items }
        ensures value { let t = type_of self.now.schema.now id in
            ForPlace t top.depth i (tree_of self.now.arena.now top.node)
            (λ v. Fills (fixed_size t)
            (serialize t v) slot.start slot.room out.old.items out.new.items
            result) }
    {
        match self.schema.fixed_size(id) {
            Some(_) => Ok(()),
            None => {
                let part = node_of_place(self.arena, top, i);
                self.append_body(id, part, slot, out)
            }
        }
    }
}
