// A handle of C.
ghost use Rattle.std.specs.Prelude.{◌≡◌, Some, None, option_map};
ghost use Rattle.ssz_handles.specs.Held.{live_of};
ghost use Rattle.ssz_said.specs.declared.status.TheConstants.{SCHEMA_MARK};

use super::held::Held;
use ssz_said::status;
use ssz_typed::Library;
use std::alloc::Global;
use std::mem::replace;

/// A schema that C holds, or none: zeros stand for none.
#[repr(C)]
#[derive(Drop)]
pub struct SszSchema {
    /// Its kind's mark where it holds one; whatever else stands here, it holds none.
    pub live: u64,
    /// The schema.
    pub held: Held,
    pub ghost honest: { live ≡ live_of SCHEMA_MARK held.value },
}

impl SszSchema {
    /// Takes what the handle holds, which then holds nothing.
    pub fn take(&mut self, alloc: Global) -> Option<Box<Library, Global>>
        ensures value { option_map (λ library. library.value) result ≡ self.old.held.value }
        ensures empty { self.new.held.value ≡ None }
    {
        if self.live != status::SCHEMA_MARK {
            return None;
        }
        let empty = SszSchema {
            live: 0,
            held: Held::empty(alloc),
        };
        let SszSchema { live: _, held } = replace(self, empty);
        Some(held.into_box())
    }

    /// Gives the handle what it holds from now on.
    pub fn put(&mut self, library: Box<Library, Global>)
        ensures { self.new.held.value ≡ Some library.value }
    {
        *self = SszSchema {
            live: status::SCHEMA_MARK,
            held: Held::of(library),
        };
    }
}
