use super::facts::Facts;
use super::ty::Ty;
use super::width::Width;
use std::alloc::Global;

/// A type of a schema, with what its tree tells of it.
#[derive(Drop)]
pub struct Entry {
    pub ty: Ty,
    pub facts: Facts,
    /// The numbers of a container's fields in byte order of their names; none of another type.
    pub order: Vec<usize>,
}

impl Entry {
    ghost use Rattle.ssz_types.specs.Types.{uint, boolean};
    ghost use Rattle.ssz_types.specs.Facts.{IsBasicEntry};

    pub fn boolean(alloc: Global) -> Entry
        ensures { IsBasicEntry boolean result }
    {
        Entry {
            ty: Ty::Boolean,
            facts: Facts::basic(1),
            order: Vec::new(alloc),
        }
    }

    pub fn uint(alloc: Global, width: Width) -> Entry
        ensures { IsBasicEntry (uint width) result }
    {
        Entry {
            ty: Ty::Uint(width),
            facts: Facts::basic(width.byte_count()),
            order: Vec::new(alloc),
        }
    }
}
