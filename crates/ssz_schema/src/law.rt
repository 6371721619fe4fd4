ghost use Rattle.ssz_schema.specs.Accepting.{AcceptedAreLegal, LegalAreAccepted};
ghost use Rattle.ssz_schema.specs.IndexLaws.{IndicesAreWithinLevels};

/// The walk of definitions accepts exactly the legal types.
pub fn legal_types_are_accepted()
    ensures legal { AcceptedAreLegal }
    ensures accepted { LegalAreAccepted }
{}

/// A generalized index of a type has at most as many levels as the type.
pub fn indices_have_levels()
    ensures { IndicesAreWithinLevels }
{}
