// A slice behind a pointer that C keeps, and none where the pointer is null.
ghost use Rattle.std.specs.Prelude.{◌≡◌, Option, Some, None, IsSome};
ghost use Rattle.ssz_typed.specs.declared.checked_bytes.CheckedBytes.{CheckedBytes};
ghost use Rattle.ssz_handles.specs.Held.{slice_coded, slice_owns};

use super::parts::Parts;
use ssz_typed::CheckedBytes;
use std::alloc::Global;
use std::marker::{Model, Send};
use std::ptr::null_mut;

/// What a handle holds, or nothing.
#[repr(C)]
#[derive(Drop)]
pub struct HeldSlice {
    at: *mut u8,
    alloc: Global,
    pub ghost value: { Option CheckedBytes } by { slice_coded },
}

impl Model for HeldSlice {
    ghost also_owns = { λ held. slice_owns held.alloc held.at held.value };
}

// It owns its box alone, so it goes to another thread as the slice does.
unsafe impl Send for HeldSlice {}

impl HeldSlice {
    /// Nothing.
    pub fn empty(alloc: Global) -> HeldSlice
        ensures { result.value ≡ None }
    {
        HeldSlice {
            at: null_mut(),
            alloc,
        }
    }

    /// What the box holds.
    pub fn of(slice: Box<CheckedBytes, Global>) -> HeldSlice
        ensures { result.value ≡ Some slice.value }
    {
        HeldSlice::of_parts(Parts::of(slice))
    }

    /// The box again.
    pub fn into_box(self) -> Box<CheckedBytes, Global>
        requires { IsSome self.value }
        ensures { Some result.value ≡ self.value }
    {
        self.into_parts().into_box()
    }

    fn of_parts(parts: Parts<CheckedBytes, Global>) -> HeldSlice
        ensures { result.value ≡ Some parts.value }
    {
        let Parts { ptr, alloc } = parts;
        HeldSlice {
            at: ptr as *mut u8,
            alloc,
        }
    }

    fn into_parts(self) -> Parts<CheckedBytes, Global>
        requires { IsSome self.value }
        ensures { Some result.value ≡ self.value }
    {
        let HeldSlice { at, alloc } = self;
        Parts {
            ptr: at as *mut CheckedBytes,
            alloc,
        }
    }
}
