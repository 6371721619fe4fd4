ghost use Rattle.std.specs.Prelude.{◌≡◌, ◌≤◌};
ghost use Rattle.ssz_types.specs.Sizes.{byte_count};

/// How many bits a number has.
#[derive(Clone, Copy, Debug, PartialEq, Eq)]
pub enum Width {
    W8,
    W16,
    W32,
    W64,
    W128,
    W256,
}

impl Width {
    /// The bytes of a number of this width: 1, 2, 4, 8, 16 or 32.
    pub fn byte_count(self) -> u64
        ensures exact { result ≡ byte_count self }
        ensures at_most { result ≤ 32 }
    {
        match self {
            Width::W8 => 1,
            Width::W16 => 2,
            Width::W32 => 4,
            Width::W64 => 8,
            Width::W128 => 16,
            Width::W256 => 32,
        }
    }
}
