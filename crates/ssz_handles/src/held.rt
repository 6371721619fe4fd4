// A box behind a pointer that C keeps, and none where the pointer is null.
ghost use Rattle.std.specs.Prelude.{◌≡◌, Option, Some, None, IsSome};
ghost use Rattle.ssz_typed.specs.declared.library.Library.{Library};
ghost use Rattle.ssz_handles.specs.Held.{library_coded, schema_owns};

use super::parts::Parts;
use ssz_typed::Library;
use std::alloc::Global;
use std::marker::{Model, Send};
use std::ptr::null_mut;

/// What a handle holds, or nothing.
#[repr(C)]
#[derive(Drop)]
pub struct Held {
    at: *mut u8,
    alloc: Global,
    pub ghost value: { Option Library } by { library_coded },
}

impl Model for Held {
    ghost also_owns = { λ held. schema_owns held.alloc held.at held.value };
}

// It owns its box alone, so it goes to another thread as the schema does.
unsafe impl Send for Held {}

impl Held {
    /// Nothing.
    pub fn empty(alloc: Global) -> Held
        ensures { result.value ≡ None }
    {
        Held {
            at: null_mut(),
            alloc,
        }
    }

    /// What the box holds.
    pub fn of(library: Box<Library, Global>) -> Held
        ensures { result.value ≡ Some library.value }
    {
        Held::of_parts(Parts::of(library))
    }

    /// The box again.
    pub fn into_box(self) -> Box<Library, Global>
        requires { IsSome self.value }
        ensures { Some result.value ≡ self.value }
    {
        self.into_parts().into_box()
    }

    fn of_parts(parts: Parts<Library, Global>) -> Held
        ensures { result.value ≡ Some parts.value }
    {
        let Parts { ptr, alloc } = parts;
        Held {
            at: ptr as *mut u8,
            alloc,
        }
    }

    fn into_parts(self) -> Parts<Library, Global>
        requires { IsSome self.value }
        ensures { Some result.value ≡ self.value }
    {
        let Held { at, alloc } = self;
        Parts {
            ptr: at as *mut Library,
            alloc,
        }
    }
}
