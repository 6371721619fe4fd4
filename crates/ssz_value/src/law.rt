ghost use Rattle.ssz_value.specs.Laws.{FaultlessWhereEncoded, OneValue, FaultlessIsRead, TreesTellValues, SizesAreLengths, DefaultsFit, DefaultsHaveLength};

/// One encoding: bytes shorter than 2^32 have no fault exactly where they encode a value of the
/// type, and then it is the only one, and the one which they are read as.
pub fn decoding_is_exact()
    ensures faultless { FaultlessWhereEncoded }
    ensures one { OneValue }
    ensures read { FaultlessIsRead }
{}

/// Two values of one type have two trees.
pub fn trees_tell_values()
    ensures { TreesTellValues }
{}

/// The size of a value is the length of its encoding.
pub fn sizes_are_lengths()
    ensures { SizesAreLengths }
{}

/// The default of a type is one of its values, and its encoding is as long as the type says.
pub fn defaults_are_values()
    ensures fits { DefaultsFit }
    ensures length { DefaultsHaveLength }
{}
