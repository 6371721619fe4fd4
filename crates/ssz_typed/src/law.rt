ghost use Rattle.ssz_typed.specs.SliceLaws.{PartsAgree, PlacesAgree};

/// What a slice answers of a part is what its bytes do, which were checked when it was opened.
pub fn slices_answer_as_bytes()
    ensures parts { PartsAgree }
    ensures places { PlacesAgree }
{}
