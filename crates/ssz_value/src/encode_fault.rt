use std::alloc::AllocError;

/// Why an encoding, or a text, of a value is not written.
#[derive(Clone, Copy, Debug, PartialEq, Eq)]
pub enum EncodeFault {
    /// It is longer than the caller takes.
    TooLong,
    /// Want of memory.
    Memory,
}

impl From<AllocError> for EncodeFault {
    ghost use Rattle.std.specs.Prelude.{◌≡◌};
    ghost use Rattle.ssz_value.specs.declared.encode_fault.EncodeFault.TheVariants.{Memory};

    ghost from_gives = { λ _ e. e ≡ Memory };

    fn from(_error: AllocError) -> Self {
        EncodeFault::Memory
    }
}
