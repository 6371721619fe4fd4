// The bytes of a part, also of one that stands nowhere in the input.
ghost use Rattle.std.specs.Prelude.{◌≡◌, ◌∷◌, [], ◌^◌, ◌<◌};
ghost use Rattle.ssz_bytes.specs.Bytes.{bit_value, le_bytes};
ghost use Rattle.ssz_slices.specs.Written.{encoding_written};

use ssz_basic::put_uint;
use ssz_schema::Width;

/// The encoding of a part: lent from the input, or made where the part stands nowhere in it.
#[derive(Clone, Copy, Debug)]
pub enum Encoding<'b> {
    /// The bytes of the input.
    Lent(&'b [u8]),
    /// The byte of a bit.
    Bit([u8; 1]),
    /// The bytes of a length.
    Length([u8; 8]),
}

impl<'b> Encoding<'b> {
    /// Its bytes.
    pub fn as_slice(&self) -> &[u8]
        ensures { result.now ≡ encoding_written self.now }
    {
        match self {
            Encoding::Lent(bytes) => bytes,
            Encoding::Bit(bytes) => bytes.as_slice(),
            Encoding::Length(bytes) => bytes.as_slice(),
        }
    }
}

/// The byte of a bit.
pub(crate) fn bit_encoding<'b>(bit: bool) -> Encoding<'b>
    ensures { encoding_written result ≡ bit_value bit ∷ [] }
{
    Encoding::Bit([u8::from(bit)])
}

/// The bytes of a length.
pub(crate) fn length_encoding<'b>(count: u64) -> Encoding<'b>
    ensures { encoding_written result ≡ le_bytes 8 count }
{
    let mut bytes = [0; 8];
    put_uint(Width::W64, u128::from(count), &mut bytes);
    Encoding::Length(bytes)
}
