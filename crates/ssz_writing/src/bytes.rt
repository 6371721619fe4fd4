//! Numbers, flags and bits, whose bytes lie in leaves.
ghost use Rattle.std.specs.Prelude.{ℕ, ◌≡◌, ◌+◌, ◌<◌, ◌++◌, ◌∷◌, [], Bool, List, length, OnOk};
ghost use Rattle.ssz_schema.specs.Unfolding.{type_of};
ghost use Rattle.ssz_value.specs.Encoding.{serialize};
ghost use Rattle.ssz_arena.specs.Content.{IsNodeOf, tree_of};
ghost use Rattle.ssz_nodes.specs.Shown.{ForValue, ArePacked, ExtendsBytes, basic_type};
ghost use Rattle.ssz_writing.specs.Leaves.{IsListOf};
ghost use Rattle.ssz_writing.specs.Offsets.{AddsBytes, AreCountedBits, delimited_bytes};

use super::writer::Writer;
use ssz_arena::NodeId;
use ssz_chunk::PairHash;
use ssz_nodes::{Basic, Top, append_chunks, chunk_of, few_bytes};
use ssz_schema::TypeId;
use ssz_value::EncodeFault;
use ssz_walk::mixed_parts;
use std::alloc::AllocError;

impl<'a, H: PairHash> Writer<'a, H> {
    /// Makes room for so many bytes more, and for a leaf, since one is appended whole before what
    /// is not of the value is taken away again. `TooLong` where they would end behind `end`.
    pub(crate) fn make_room(&self, len: u128, out: &mut Vec<u8>) -> Result<(), EncodeFault>
        ensures { out.new.items ≡ out.old.items }
    {
        let left = self.end.saturating_sub(out.len());
        if len > left as u128 {
            return Err(EncodeFault::TooLong);
        }
        out.reserve((len as usize).saturating_add(32))?;
        Ok(())
    }

    /// A value of a basic type.
    pub(crate) fn append_basic(
        &self,
        basic: Basic,
        node: NodeId,
        out: &mut Vec<u8>,
    ) -> Result<(), EncodeFault>
        requires node { IsNodeOf self.now.arena.now node }
        ensures kept { ExtendsBytes out.old.items out.new.items }
        ensures value { let t = basic_type basic in
            ForValue t (tree_of self.now.arena.now node)
            (λ v. OnOk result (out.new.items ≡ out.old.items ++ serialize t v)) }
    {
        let chunk = chunk_of(self.arena, node);
        out.extend_from_slice(&chunk.0[..basic.size()])?;
        Ok(())
    }

    /// The first len bytes of the chunks at the places of a full tree.
    pub(crate) fn append_packed(
        &self,
        top: Top,
        len: u128,
        out: &mut Vec<u8>,
    ) -> Result<(), EncodeFault>
        requires depth { top.depth < 64 }
        requires node { IsNodeOf self.now.arena.now top.node }
        ensures kept { ExtendsBytes out.old.items out.new.items }
        ensures long { OnOk result (length out.new.items ≡ length out.old.items + len) }
        ensures bytes { (bytes : List ℕ)
            → ArePacked top.depth len bytes (tree_of self.now.arena.now top.node)
            → OnOk result (out.new.items ≡ out.old.items ++ bytes) }
    {
        self.make_room(len, out)?;
        append_chunks(self.arena, top, len, out)?;
        Ok(())
    }

    /// A list of basic elements of this size. Where one chunk has all bytes, nothing is tested
    /// before they are appended: so few do not make writing go on far behind `end`.
    #[inline(always)]
    pub(crate) fn append_items(
        &self,
        id: TypeId,
        size: usize,
        node: NodeId,
        out: &mut Vec<u8>,
    ) -> Result<(), EncodeFault>
        requires known { id < length self.now.schema.now.trees }
        requires node { IsNodeOf self.now.arena.now node }
        requires size { IsListOf (type_of self.now.schema.now id) size }
        ensures kept { ExtendsBytes out.old.items out.new.items }
        ensures value { let t = type_of self.now.schema.now id in
            ForValue t (tree_of self.now.arena.now node)
            (λ v. AddsBytes (serialize t v) out.old.items out.new.items result) }
    {
        // Every type of a schema is legal.
        let _legal = self.schema.ty(id);
        let depth = self.schema.depth(id);
        let (content, count) = mixed_parts(self.arena, node);
        let top = Top {
            node: content,
            depth,
        };
        let len = u128::from(count) * size as u128;
        if len > 32 {
            return self.append_packed(top, len, out);
        }
        out.extend_from_slice(few_bytes(self.arena, top, len as usize))?;
        Ok(())
    }

    /// Bits with a delimiter behind them.
    pub(crate) fn append_bitlist(&self, top: Top, out: &mut Vec<u8>) -> Result<(), EncodeFault>
        requires depth { top.depth < 64 }
        requires node { IsNodeOf self.now.arena.now top.node }
        ensures kept { ExtendsBytes out.old.items out.new.items }
        ensures value { (bs : List Bool)
            → AreCountedBits top.depth bs (tree_of self.now.arena.now top.node)
            → OnOk result (out.new.items ≡ out.old.items ++ delimited_bytes bs) }
    {
        let (content, count) = mixed_parts(self.arena, top.node);
        let bits = Top {
            node: content,
            depth: top.depth,
        };
        self.append_packed(bits, (u128::from(count) + 7) / 8, out)?;
        let above = count % 8;
        if above == 0 {
            append_byte(1, out)?;
            return Ok(());
        }
        if let Some(last) = out.pop() {
            append_byte(last.wrapping_add(1 << above), out)?;
        }
        Ok(())
    }
}

/// One byte.
pub fn append_byte(byte: u8, out: &mut Vec<u8>) -> Result<(), AllocError>
    ensures kept { ExtendsBytes out.old.items out.new.items }
    ensures items { OnOk result (out.new.items ≡ out.old.items ++ byte ∷ []) }
{
    out.push(byte)?;
    Ok(())
}
