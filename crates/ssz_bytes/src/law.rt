ghost use Rattle.ssz_bytes.specs.ByteLaws.{NumberIsThatOfItsBytes, BytesAreThoseOfTheirNumber, NumberHasSoManyBytes, NumberIsThatOfItsBits, BitsAreThoseOfTheirNumber};

/// Bytes and number determine each other.
pub fn bytes_tell_numbers()
    ensures size { NumberHasSoManyBytes }
    ensures numbers { NumberIsThatOfItsBytes }
    ensures bytes { BytesAreThoseOfTheirNumber }
{}

/// Bits and number determine each other.
pub fn bits_tell_numbers()
    ensures numbers { NumberIsThatOfItsBits }
    ensures bits { BitsAreThoseOfTheirNumber }
{}
