//! Room for offsets among the fixed parts, and offsets that are written into it.
ghost use Rattle.std.specs.Prelude.{ℕ, ◌≡◌, ◌-◌, ◌<◌, ◌≤◌, ◌++◌, List, length, None, OnOk, Option};
ghost use Rattle.ssz_schema.specs.Unfolding.{type_of};
ghost use Rattle.ssz_bytes.specs.Bytes.{offset_bytes};
ghost use Rattle.ssz_value.specs.Encoding.{serialize};
ghost use Rattle.ssz_value.specs.Written.{capped};
ghost use Rattle.ssz_arena.specs.Content.{IsNodeOf, tree_of};
ghost use Rattle.ssz_nodes.specs.Shown.{ForValue, ExtendsBytes};
ghost use Rattle.ssz_writing.specs.Offsets.{AddsBytes, Fills, KeepsUpTo, offset_rooms};

use super::writer::Writer;
use ssz_arena::NodeId;
use ssz_basic::put_uint;
use ssz_chunk::PairHash;
use ssz_schema::{TypeId, Width};
use ssz_value::EncodeFault;

/// Where the room for an offset stands, and where the encoding begins from which it counts.
#[derive(Clone, Copy)]
pub struct Slot {
    pub start: usize,
    pub room: usize,
}

/// Room for so many offsets.
pub fn append_rooms(count: u64, out: &mut Vec<u8>) -> Result<(), EncodeFault>
    ensures kept { ExtendsBytes out.old.items out.new.items }
    ensures rooms { AddsBytes (offset_rooms count) out.old.items out.new.items result }
{
    for _i in 0..count {
        out.extend_from_slice(&[0; 4])?;
    }
    Ok(())
}

impl<'a, H: PairHash> Writer<'a, H> {
    /// A part of variable size, and its offset into the room that was kept.
    #[cycle(append)]
    pub(crate) fn append_body(
        &self,
        id: TypeId,
        node: NodeId,
        slot: Slot,
        out: &mut Vec<u8>,
    ) -> Result<(), EncodeFault>
        requires known { id < length self.now.schema.now.trees }
        requires node { IsNodeOf self.now.arena.now node }
        requires behind { slot.start ≤ slot.room }
        ensures kept { KeepsUpTo slot.start out.old.items out.new.items }
        ensures value { let t = type_of self.now.schema.now id in
            ForValue t (tree_of self.now.arena.now node)
            (λ v. Fills None (serialize t v) slot.start slot.room out.old.items out.new.items
            result) }
    {
        self.put_end(slot, out)?;
        self.append_value(id, node, out)
    }

    /// Writes where the output ends into the room that was kept. `TooLong` where that is behind
    /// `end`.
    pub(crate) fn put_end(&self, slot: Slot, out: &mut Vec<u8>) -> Result<(), EncodeFault>
        requires behind { slot.start ≤ slot.room }
        ensures kept { KeepsUpTo slot.start out.old.items out.new.items }
        ensures put { (front back : List ℕ) → slot.room ≡ capped (length front)
            → out.old.items ≡ front ++ offset_bytes 0 ++ back
            → OnOk result (out.new.items
            ≡ front ++ offset_bytes (length out.old.items - slot.start) ++ back) }
    {
        if out.len() > self.end {
            return Err(EncodeFault::TooLong);
        }
        let offset = out.len().saturating_sub(slot.start);
        put_offset(slot.room, offset, out.as_mut_slice());
        Ok(())
    }
}

// Writes the offset into its room, if there are so many bytes.
fn put_offset(room: usize, offset: usize, bytes: &mut [u8])
    ensures kept { KeepsUpTo room bytes.old bytes.new }
    ensures put { (front back : List ℕ) → room ≡ capped (length front)
        → bytes.old ≡ front ++ offset_bytes 0 ++ back
        → bytes.new ≡ front ++ offset_bytes offset ++ back }
{
    let len = bytes.len();
    if room >= len {
        return;
    }
    if len - room < 4 {
        return;
    }
    let low = offset as u128 % (1 << 32);
    put_uint(Width::W32, low, &mut bytes[room..room + 4]);
}
