ghost use Rattle.std.specs.Prelude.{◌≡◌, IfOk};
ghost use Rattle.ssz_schema.specs.Types.{SszType};
ghost use Rattle.ssz_value.specs.Standing.{IsValue, value_of};
ghost use Rattle.ssz_plain.specs.Lent.{part_value, IsPartOf};

use ssz_value::{Value, copy};
use std::alloc::{AllocError, Global};

/// A part of a value. What lies in the value as a value of its own is lent; a byte, a bit, a length
/// or a selector is told.
#[derive(Clone, Copy, Debug)]
pub enum PartRef<'a> {
    /// The whole value, or a field, an element or the value of a union.
    Held(&'a Value),
    /// A byte of a vector or list of uint8, the length of a list or bitlist, or the selector of a
    /// union.
    Number(u64),
    /// A bit of a bitvector or bitlist.
    Bit(bool),
}

impl PartRef<'_> {
    /// A value of its own that stands for the part. It fails for want of memory alone.
    pub fn to_value(&self, alloc: Global) -> Result<Value, AllocError>
        ensures value { IfOk result (λ v. value_of v ≡ part_value self.now) }
        ensures fits { (t : SszType) → IsPartOf t self.now → IfOk result (IsValue t) }
    {
        match self {
            PartRef::Held(value) => copy(alloc, value),
            PartRef::Number(number) => Ok(Value::Uint(u128::from(*number))),
            PartRef::Bit(bit) => Ok(Value::Bool(*bit)),
        }
    }
}
