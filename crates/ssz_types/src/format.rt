ghost use Rattle.std.specs.Prelude.{◌≡◌};
ghost use Rattle.ssz_types.specs.Legal.{greatest_limit, most_levels};

/// The format of a schema, which says how large its types may grow.
#[derive(Clone, Copy, Debug, PartialEq, Eq)]
pub enum Format {
    /// Limits up to 2^40, at most 63 levels.
    One,
    /// Limits up to 2^62, at most 126 levels.
    Two,
}

impl Format {
    /// The greatest limit of a list or bitlist.
    pub fn greatest_limit(self) -> u64
        ensures { result ≡ greatest_limit self }
    {
        match self {
            Format::One => 1 << 40,
            Format::Two => 1 << 62,
        }
    }

    /// The most levels of a type.
    pub fn most_levels(self) -> u32
        ensures { result ≡ most_levels self }
    {
        match self {
            Format::One => 63,
            Format::Two => 126,
        }
    }
}
