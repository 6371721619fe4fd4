ghost use Rattle.std.specs.Prelude.{◌≡◌, ◌≤◌, ◌+◌, ◌++◌, length, take, drop, IfOk, OnErr, List, ℕ};
ghost use Rattle.ssz_bytes.specs.Bytes.{offset_bytes};
ghost use Rattle.ssz_schema.specs.Sizes.{offset_size};

use byteorder::{ByteOrder, LittleEndian};
use std::alloc::AllocError;
use std::marker::Model;

/// The place that is kept for an offset, seen as the number of bytes before it. It is of use with
/// its own writer alone.
#[derive(Clone, Copy, Debug)]
pub struct Slot {
    place: usize,
}

impl Model for Slot {
    ghost Value = { ℕ };

    ghost view = { λ a. a.place };

    ghost inverse = { λ n. record { place = n } };
}

/// Appends room for offsets to a vector that is lent to it, and fills it in later.
#[derive(Drop)]
pub struct OffsetWriter<'a> {
    /// The vector that is lent.
    pub out: &'a mut Vec<u8>,
}

impl<'a> OffsetWriter<'a> {
    /// Writes behind the bytes of this vector.
    pub fn new(out: &'a mut Vec<u8>) -> Self
        ensures same { result.out.ghost_name ≡ out.entry.ghost_name }
        ensures bytes { result.out.now.items ≡ out.old.items }
    {
        OffsetWriter { out }
    }

    /// Appends four bytes, and answers their place. For want of memory nothing is appended.
    pub fn reserve(&mut self) -> Result<Slot, AllocError>
        ensures same { self.new.out.ghost_name ≡ self.old.out.ghost_name }
        ensures added { IfOk result (λ slot.
            self.new.out.now.items ≡ self.old.out.now.items ++ offset_bytes 0) }
        ensures slot { IfOk result (λ slot. slot ≡ length self.old.out.now.items) }
        ensures kept { OnErr result (self.new.out.now.items ≡ self.old.out.now.items) }
    {
        let place = self.out.len();
        self.out.extend_from_slice(&[0; 4])?;
        Ok(Slot { place })
    }

    /// Writes the offset at the place that was kept for it. All other bytes stay.
    pub fn patch(&mut self, slot: Slot, offset: u32)
        requires { slot + offset_size ≤ length self.old.out.now.items }
        ensures same { self.new.out.ghost_name ≡ self.old.out.ghost_name }
        ensures patched { let before = self.old.out.now.items in
            self.new.out.now.items
            ≡ take slot before ++ offset_bytes offset ++ drop (slot + offset_size) before }
    {
        put_offset(self.out.as_mut_slice(), slot.place, offset);
    }
}

// Writes the offset at this place.
fn put_offset(bytes: &mut [u8], place: usize, offset: u32)
    requires { place + offset_size ≤ length bytes.old }
    ensures { bytes.new
        ≡ take place bytes.old ++ offset_bytes offset ++ drop (place + offset_size) bytes.old }
{
    LittleEndian::write_u32(&mut bytes[place..place + 4], offset);
}
