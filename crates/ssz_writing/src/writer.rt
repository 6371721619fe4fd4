//! The writer, and the choice of how a value is written by the form of its type.
ghost use Rattle.std.specs.Prelude.{◌≡◌, ◌<◌, ◌≤◌, length, OnOk, Option};
ghost use Rattle.std.specs.List.{AllByRecursion};
ghost use Rattle.ssz_schema.specs.Types.{union};
ghost use Rattle.ssz_schema.specs.Unfolding.{type_of, options_over, IsBelow};
ghost use Rattle.ssz_value.specs.Encoding.{serialize};
ghost use Rattle.ssz_value.specs.Written.{Appends};
ghost use Rattle.ssz_arena.specs.Content.{IsNodeOf, tree_of};
ghost use Rattle.ssz_nodes.specs.Shown.{ForValue, ExtendsBytes};
ghost use Rattle.ssz_writing.specs.Offsets.{AddsBytes};

use super::bytes::append_byte;
use super::measuring::part_len;
use ssz_arena::{Arena, NodeId};
use ssz_chunk::PairHash;
use ssz_nodes::{Basic, Top};
use ssz_schema::{Schema, Ty, TypeId};
use ssz_value::{EncodeFault, option_at};
use ssz_walk::mixed_parts;

/// Where the parts of a value are found, and where its encoding is to end at the latest: where it
/// is seen to end behind it, nothing more is written.
#[derive(Drop)]
pub(crate) struct Writer<'a, H: PairHash> {
    pub arena: &'a Arena<H>,
    pub schema: &'a Schema,
    pub end: usize,
}

/// Appends the encoding of the value whose tree the node has, straight from the nodes, in one pass.
/// `TooLong` exactly where its length exceeds max: writing ends soon behind max then.
/// After a refusal `out` is as before, but for its room, which may grow to twice of what it holds.
pub fn write_encoding<H: PairHash>(
    arena: &Arena<H>,
    schema: &Schema,
    id: TypeId,
    node: NodeId,
    max: u32,
    out: &mut Vec<u8>,
) -> Result<(), EncodeFault>
    requires known { id < length schema.now.trees }
    requires node { IsNodeOf arena.now node }
    ensures { let t = type_of schema.now id in
        ForValue t (tree_of arena.now node)
        (λ v. Appends (serialize t v) max out.old.items out.new.items result) }
{
    let before = out.len();
    let end = before.saturating_add(max as usize);
    let writer = Writer { arena, schema, end };
    let written = writer.append_value(id, node, out);
    if written.is_ok() && out.len() <= end {
        return Ok(());
    }
    out.truncate(before);
    // Only what is refused is measured.
    if part_len(arena, schema, id, node) > u64::from(max) {
        return Err(EncodeFault::TooLong);
    }
    Err(EncodeFault::Memory)
}

impl<'a, H: PairHash> Writer<'a, H> {
    /// The encoding of a value.
    #[cycle(append)]
    pub(crate) fn append_value(
        &self,
        id: TypeId,
        node: NodeId,
        out: &mut Vec<u8>,
    ) -> Result<(), EncodeFault>
        requires known { id < length self.now.schema.now.trees }
        requires node { IsNodeOf self.now.arena.now node }
        ensures kept { ExtendsBytes out.old.items out.new.items }
        ensures value { let t = type_of self.now.schema.now id in
            ForValue t (tree_of self.now.arena.now node)
            (λ v. AddsBytes (serialize t v) out.old.items out.new.items result) }
    {
        let depth = self.schema.depth(id);
        let top = Top { node, depth };
        match self.schema.ty(id) {
            Ty::Uint(width) => self.append_basic(Basic::Number(*width), node, out),
            Ty::Boolean => self.append_basic(Basic::Flag, node, out),
            Ty::Bitvector(n) => self.append_packed(top, (u128::from(*n) + 7) / 8, out),
            Ty::Bitlist(_) => self.append_bitlist(top, out),
            Ty::Vector(elem, n) => self.append_sequence(*elem, top, *n, out),
            Ty::List(elem, _) => {
                let (content, count) = mixed_parts(self.arena, node);
                let inner = Top {
                    node: content,
                    depth,
                };
                self.append_sequence(*elem, inner, count, out)
            }
            Ty::Union(options) => self.append_chosen(id, options.as_slice(), node, out),
            Ty::Container(fields) => self.append_fields(id, fields.as_slice(), top, out),
        }
    }

    // Of a union of these options, whose types stand before id.
    #[cycle(append)]
    fn append_chosen(
        &self,
        id: TypeId,
        options: &[Option<TypeId>],
        node: NodeId,
        out: &mut Vec<u8>,
    ) -> Result<(), EncodeFault>
        requires known { id < length self.now.schema.now.trees }
        requires before { AllByRecursion (IsBelow id) options.now }
        requires few { length options.now ≤ 128 }
        requires node { IsNodeOf self.now.arena.now node }
        ensures kept { ExtendsBytes out.old.items out.new.items }
        ensures value { let t = union (options_over self.now.schema.now.trees options.now) in
            ForValue t (tree_of self.now.arena.now node)
            (λ v. AddsBytes (serialize t v) out.old.items out.new.items result) }
    {
        let (content, number) = mixed_parts(self.arena, node);
        let selector = (number % 256) as u8;
        append_byte(selector, out)?;
        match option_at(options, selector) {
            Some(Some(option)) => self.append_value(option, content, out),
            Some(None) => Ok(()),
            None => Ok(()),
        }
    }
}
