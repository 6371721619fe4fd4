ghost use Rattle.std.specs.Prelude.{◌≡◌, option_map};
ghost use Rattle.ssz_schema.specs.Steps.{unnumbered};

use ssz_types::TypeId;

/// The part to which a step leads.
#[derive(Clone, Copy, Debug)]
pub struct Lead {
    /// The type of the part.
    pub part: TypeId,
    /// The number of the part if it is a field, which is how many fields stand before it; else 0.
    pub number: u64,
}

/// A part that is no field, if there is one.
pub fn unnumbered(part: Option<TypeId>) -> Option<Lead>
    ensures { result ≡ option_map unnumbered part }
{
    match part {
        Some(part) => Some(Lead { part, number: 0 }),
        None => None,
    }
}
