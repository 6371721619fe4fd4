// Types of their own, equal to those of a schema.
ghost use Rattle.std.specs.Prelude.{◌≡◌, IfOk};
ghost use Rattle.std.specs.List.{AllZip};
ghost use Rattle.ssz_types.specs.Copies.{IsSameType, IsSameEntry};

use super::entry::Entry;
use super::name::Name;
use super::ty::Ty;
use super::type_id::TypeId;
use std::alloc::{AllocError, Global};

impl Ty {
    // A type of its own, of the same form over the same parts.
    fn copied(&self, alloc: Global) -> Result<Ty, AllocError>
        ensures { IfOk result (IsSameType self.now) }
    {
        match self {
            Ty::Uint(width) => Ok(Ty::Uint(*width)),
            Ty::Boolean => Ok(Ty::Boolean),
            Ty::Container(fields) => Ok(Ty::Container(copied_fields(alloc, fields.as_slice())?)),
            Ty::Vector(elem, n) => Ok(Ty::Vector(*elem, *n)),
            Ty::List(elem, limit) => Ok(Ty::List(*elem, *limit)),
            Ty::Bitvector(n) => Ok(Ty::Bitvector(*n)),
            Ty::Bitlist(limit) => Ok(Ty::Bitlist(*limit)),
            Ty::Union(options) => Ok(Ty::Union(options.iter().copied().collect(alloc)?)),
        }
    }
}

impl Entry {
    fn copied(&self, alloc: Global) -> Result<Entry, AllocError>
        ensures { IfOk result (IsSameEntry self.now) }
    {
        Ok(Entry {
            ty: self.ty.copied(alloc)?,
            facts: self.facts,
            order: self.order.as_slice().to_vec(alloc)?,
        })
    }
}

// The fields with names of their own.
fn copied_fields(
    alloc: Global,
    fields: &[(Name, TypeId)],
) -> Result<Vec<(Name, TypeId)>, AllocError>
    ensures { IfOk result (λ copies. copies.items ≡ fields.now) }
{
    let mut copies = Vec::with_capacity(alloc, fields.len())?;
    for field in fields {
        copies.push((Name::copy_of(alloc, field.0.as_bytes())?, field.1))?;
    }
    Ok(copies)
}

/// The entries in order, each of its own.
pub fn copied_entries(alloc: Global, entries: &[Entry]) -> Result<Vec<Entry>, AllocError>
    ensures { IfOk result (λ copies. AllZip IsSameEntry entries.now copies.items) }
{
    let mut copies = Vec::with_capacity(alloc, entries.len())?;
    for entry in entries {
        copies.push(entry.copied(alloc)?)?;
    }
    Ok(copies)
}
