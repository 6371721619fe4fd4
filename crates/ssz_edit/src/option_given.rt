// What a `choose` gives for its option.
ghost use Rattle.std.specs.Prelude.{ℕ, ◌≡◌, ◌<◌, ◌^◌, List, Option, Some, length, slice_get, IfOk};
ghost use Rattle.ssz_schema.specs.Unfolding.{options_over, IsBelow};
ghost use Rattle.ssz_value.specs.Faults.{option_fault};
ghost use Rattle.ssz_edit.specs.Inner.{IsDefault, IsLiteral};

use super::given::Given;
use ssz_bytes::Fault;
use ssz_checking::check;
use ssz_parts::none_fault;
use ssz_schema::{Schema, TypeId};
use ssz_value::{Value, default_of};
use std::alloc::{AllocError, Global};

/// The first fault of an option's literal; the option None wants no bytes.
pub fn option_fault(schema: &Schema, option: Option<TypeId>, literal: &[u8]) -> Option<Fault>
    requires known { IsBelow (length schema.now.trees) option }
    requires short { length literal.now < 2 ^ 32 }
    ensures { (options : List (Option ℕ)) (k : ℕ) → slice_get options k ≡ Some option
        → result ≡ option_fault (options_over schema.now.trees options) k 0 literal.now }
{
    match option {
        Some(id) => check(schema, id, literal),
        None => none_fault(0, literal),
    }
}

/// A literal without a fault, as what is given for the option.
pub fn literal_given<'a>(option: Option<TypeId>, literal: &'a [u8]) -> Option<Given<'a>>
    ensures { IsLiteral option literal.now result }
{
    match option {
        Some(_) => Some(Given::Bytes(literal)),
        None => None,
    }
}

/// The default of an option.
pub fn option_default(
    alloc: Global,
    schema: &Schema,
    option: Option<TypeId>,
) -> Result<Option<Value>, AllocError>
    requires { IsBelow (length schema.now.trees) option }
    ensures { IfOk result (IsDefault schema.now option) }
{
    let Some(id) = option else {
        return Ok(None);
    };
    // Every type of a schema is legal, so that its default fits.
    let _legal = schema.ty(id);
    let value = default_of(alloc, schema, id)?;
    Ok(Some(value))
}
