/// The first fault of bytes that encode no value.
#[derive(Clone, Copy, Debug, PartialEq, Eq)]
pub struct Fault {
    /// 1 to 11, the number of the code F1 to F11.
    pub code: u8,
    /// Where it lies, counted in bytes from the start of the whole input.
    pub position: u64,
}

impl Fault {
    /// F1: fewer bytes than there have to be.
    pub const SHORT: u8 = 1;

    /// F2: bytes behind the last one.
    pub const EXTRA: u8 = 2;

    /// F3: a boolean that is neither 00 nor 01.
    pub const BAD_BOOL: u8 = 3;

    /// F4: a first offset that is not where the fixed parts end.
    pub const FIRST_OFFSET: u8 = 4;

    /// F5: an offset behind the end.
    pub const OFFSET_RANGE: u8 = 5;

    /// F6: an offset below the one before.
    pub const OFFSET_ORDER: u8 = 6;

    /// F7: no whole number of elements.
    pub const RAGGED: u8 = 7;

    /// F8: more elements or bits than the limit.
    pub const TOO_MANY: u8 = 8;

    /// F9: a bit behind the last one of a bitvector that is 1.
    pub const PADDING_BITS: u8 = 9;

    /// F10: no 1 bit that ends the bits of a bitlist.
    pub const NO_DELIMITER: u8 = 10;

    /// F11: a selector that is no option's number.
    pub const BAD_SELECTOR: u8 = 11;
}
