//! Laws of the definition of what is taken.
ghost use Rattle.ssz_words.specs.Laws.{TakesExactly, TakesPlainWords};

/// Words are taken exactly where `clap` finds no fault in them, and beside that the scripts of a
/// `weave` are at most ten, its order is one or more digits below their number, and the root of a
/// `verify` is 64 hexadecimal digits with or without `0x`.
pub fn takes_exactly()
    ensures { TakesExactly }
{}

/// Words after the name of a command of which none begins with a hyphen are its arguments in order,
/// and the limit of bytes is then 2^28. The order of a `weave` is one digit a turn; the numbers of
/// a `work` are written in decimal digits.
pub fn takes_plain_words()
    ensures { TakesPlainWords }
{}
