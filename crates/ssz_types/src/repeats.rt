// Names of fields that stand twice.
ghost use Rattle.std.specs.Prelude.{◌≡◌, [], map, IfOk};
ghost use Rattle.ssz_types.specs.Repeats.{first_repeat, is_at};

use super::expr::TypeExpr;
use super::name::Name;
use std::alloc::{AllocError, Global};
use std::collections::BTreeSet;

/// The number of the first field that has the name of an earlier one.
pub(crate) fn first_repeat(
    alloc: Global,
    fields: &[(Name, TypeExpr)],
) -> Result<Option<usize>, AllocError>
    ensures { IfOk result (λ repeat.
        repeat ≡ first_repeat [] 0 (map (λ field. field.0) fields.now)) }
{
    let mut seen = BTreeSet::new(alloc);
    for (i, field) in fields.iter().enumerate() {
        if !seen.insert(field.0.as_bytes())? {
            return Ok(Some(i));
        }
    }
    Ok(None)
}

/// Whether the number is this place.
pub fn is_at(place: Option<usize>, i: usize) -> bool
    ensures { result ≡ is_at place i }
{
    match place {
        Some(place) => place == i,
        None => false,
    }
}
