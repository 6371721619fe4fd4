ghost use Rattle.std.specs.Prelude.{◌≡◌, IfOk, option_map};
ghost use Rattle.ssz_line.specs.Paths.{path_step};
ghost use Rattle.ssz_line.specs.Spelled.{meant};

use super::single::read_selector;
use ssz_decimal::number_of_64_bits;
use ssz_schema::{Name, PathStep, is_name};
use std::alloc::{AllocError, Global};

/// A step of a path as its text spells it. The name of a field lies in the text.
#[derive(Clone, Copy)]
pub(crate) enum SpelledStep<'a> {
    Field(&'a [u8]),
    Index(u64),
    Len,
    Selector,
    Option(u8),
}

/// The step that a part of a path spells; None where it spells none. Takes no memory.
pub(crate) fn spelled(part: &[u8]) -> Option<SpelledStep<'_>>
    ensures { option_map meant result ≡ path_step part.now }
{
    if part == b"#len".as_slice() {
        return Some(SpelledStep::Len);
    }
    if part == b"#sel".as_slice() {
        return Some(SpelledStep::Selector);
    }
    if part.starts_with(b"#") {
        let number = read_selector(part.split_at(1).1)?;
        return Some(SpelledStep::Option(number));
    }
    if is_name(part) {
        return Some(SpelledStep::Field(part));
    }
    let element = number_of_64_bits(part)?;
    Some(SpelledStep::Index(element))
}

/// The step that is spelled, with a name of its own.
pub(crate) fn step_of(alloc: Global, spelled: SpelledStep<'_>) -> Result<PathStep, AllocError>
    ensures { IfOk result (λ step. step ≡ meant spelled.entry) }
{
    match spelled {
        SpelledStep::Field(name) => Ok(PathStep::Field(Name::copy_of(alloc, name)?)),
        SpelledStep::Index(element) => Ok(PathStep::Index(element)),
        SpelledStep::Len => Ok(PathStep::Len),
        SpelledStep::Selector => Ok(PathStep::Selector),
        SpelledStep::Option(number) => Ok(PathStep::Option(number)),
    }
}
