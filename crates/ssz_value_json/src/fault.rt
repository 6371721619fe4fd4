use ssz_value::EncodeFault;
use std::alloc::{AllocError, AllocFailed};

/// The first fault of bytes that are the text of no value of a type.
#[derive(Clone, Copy, Debug, PartialEq, Eq)]
pub struct JsonFault {
    /// 1 to 8, the number of the code J1 to J8.
    pub code: u8,
    /// The number of the part that has the fault, and 0 for J1 and J8. Parts are counted from 0 in
    /// preorder, fields in the order of the type; the value of a union is a part, and so is each
    /// string. The count stands still at the greatest u64.
    pub number: u64,
}

impl JsonFault {
    /// J1: the bytes are no JSON text.
    pub const NOT_JSON: u8 = 1;

    /// J2: not the kind of JSON that the type has.
    pub const KIND: u8 = 2;

    /// J3: a string that is not written as the type has it.
    pub const TEXT: u8 = 3;

    /// J4: a number that does not fit its width.
    pub const RANGE: u8 = 4;

    /// J5: not the length of a vector or of a uint256, or above the limit of a list.
    pub const COUNT: u8 = 5;

    /// J6: a field is missing, or a member is no field.
    pub const MEMBER: u8 = 6;

    /// J7: a selector that is no option's number.
    pub const SELECTOR: u8 = 7;

    /// J8: another spelling of a value's text.
    pub const SPELLING: u8 = 8;
}

/// Why bytes give no value.
#[derive(Clone, Copy, Debug, PartialEq, Eq)]
pub enum JsonRead {
    /// They are the text of none: their first fault.
    Bad(JsonFault),
    /// Want of memory.
    Memory,
}

impl From<AllocError> for JsonRead {
    ghost use Rattle.std.specs.Prelude.{◌≡◌};
    ghost use Rattle.ssz_value_json.specs.declared.fault.JsonRead.TheVariants.{Memory};

    ghost from_gives = { λ _ e. e ≡ Memory };

    fn from(_error: AllocError) -> Self {
        JsonRead::Memory
    }
}

impl<T: Drop> From<AllocFailed<T>> for JsonRead {
    ghost use Rattle.std.specs.Prelude.{◌≡◌};
    ghost use Rattle.ssz_value_json.specs.declared.fault.JsonRead.TheVariants.{Memory};

    ghost from_gives = { λ _ e. e ≡ Memory };

    fn from(_error: AllocFailed<T>) -> Self {
        JsonRead::Memory
    }
}

/// Why a value is not written: its text is longer than the caller takes, or want of memory.
pub type JsonWrite = EncodeFault;
