// A handle of C for a slice.
ghost use Rattle.std.specs.Prelude.{◌≡◌, Some, None, option_map};
ghost use Rattle.ssz_handles.specs.Held.{live_of};
ghost use Rattle.ssz_said.specs.declared.status.TheConstants.{SLICE_MARK};

use super::held_slice::HeldSlice;
use ssz_said::status;
use ssz_typed::CheckedBytes;
use std::alloc::Global;
use std::mem::replace;

/// A slice that C holds, or none: zeros stand for none.
#[repr(C)]
#[derive(Drop)]
pub struct SszSlice {
    /// Its kind's mark where it holds one; whatever else stands here, it holds none.
    pub live: u64,
    /// The slice.
    pub held: HeldSlice,
    pub ghost honest: { live ≡ live_of SLICE_MARK held.value },
}

impl SszSlice {
    /// Takes what the handle holds, which then holds nothing.
    pub fn take(&mut self, alloc: Global) -> Option<Box<CheckedBytes, Global>>
        ensures value { option_map (λ slice. slice.value) result ≡ self.old.held.value }
        ensures empty { self.new.held.value ≡ None }
    {
        if self.live != status::SLICE_MARK {
            return None;
        }
        let empty = SszSlice {
            live: 0,
            held: HeldSlice::empty(alloc),
        };
        let SszSlice { live: _, held } = replace(self, empty);
        Some(held.into_box())
    }

    /// Gives the handle what it holds from now on.
    pub fn put(&mut self, slice: Box<CheckedBytes, Global>)
        ensures { self.new.held.value ≡ Some slice.value }
    {
        *self = SszSlice {
            live: status::SLICE_MARK,
            held: HeldSlice::of(slice),
        };
    }
}
