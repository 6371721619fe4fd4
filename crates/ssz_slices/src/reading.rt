// What bytes without a fault tell of the value that they encode.
ghost use Rattle.std.specs.Prelude.{◌≡◌, ◌*◌, ◌<◌, ◌^◌, length, None};
ghost use Rattle.ssz_schema.specs.Types.{bitlist};
ghost use Rattle.ssz_schema.specs.Unfolding.{type_of};
ghost use Rattle.ssz_bytes.specs.Faults.{bitlist_length};
ghost use Rattle.ssz_value.specs.Faults.{first_fault};
ghost use Rattle.ssz_value.specs.Reading.{value_in};
ghost use Rattle.ssz_slices.specs.Part.{part_len, selector_of, uint_of, boolean_of};

use ssz_basic::{read_bitlist, read_uint};
use ssz_parts::element_count;
use ssz_schema::{Schema, Ty, TypeId, Width};

/// How many bits a bitlist has.
pub fn bits_in_list(limit: u64, bytes: &[u8]) -> u64
    requires short { length bytes.now < 2 ^ 32 }
    requires faultless { first_fault (bitlist limit) 0 bytes.now ≡ None }
    ensures exact { result ≡ bitlist_length bytes.now }
    ensures room { result < 8 * length bytes.now }
{
    match read_bitlist(bytes, limit, 0) {
        Ok(len) => len,
        Err(_) => unreachable!(),
    }
}

/// How many elements or bits a value of the type has, where it is a vector, list, bitvector or
/// bitlist.
pub fn len_in(schema: &Schema, id: TypeId, bytes: &[u8]) -> Option<u64>
    requires known { id < length schema.now.trees }
    requires short { length bytes.now < 2 ^ 32 }
    requires faultless { first_fault (type_of schema.now id) 0 bytes.now ≡ None }
    ensures { let t = type_of schema.now id in result ≡ part_len t (value_in t bytes.now) }
{
    match schema.ty(id) {
        Ty::Vector(_, n) => Some(*n),
        Ty::List(elem, limit) => Some(element_count(schema.fixed_size(*elem), *limit, bytes)),
        Ty::Bitvector(n) => Some(*n),
        Ty::Bitlist(limit) => Some(bits_in_list(*limit, bytes)),
        Ty::Uint(_) | Ty::Boolean | Ty::Container(_) | Ty::Union(_) => None,
    }
}

/// The selector, where the type is a union.
pub fn selector_in(schema: &Schema, id: TypeId, bytes: &[u8]) -> Option<u8>
    requires known { id < length schema.now.trees }
    requires short { length bytes.now < 2 ^ 32 }
    requires faultless { first_fault (type_of schema.now id) 0 bytes.now ≡ None }
    ensures { let t = type_of schema.now id in result ≡ selector_of t (value_in t bytes.now) }
{
    match schema.ty(id) {
        Ty::Union(_) => Some(bytes[0]),
        _ => None,
    }
}

/// The number, where the type is one of at most 128 bits.
pub fn uint_in(schema: &Schema, id: TypeId, bytes: &[u8]) -> Option<u128>
    requires known { id < length schema.now.trees }
    requires short { length bytes.now < 2 ^ 32 }
    requires faultless { first_fault (type_of schema.now id) 0 bytes.now ≡ None }
    ensures { let t = type_of schema.now id in result ≡ uint_of t (value_in t bytes.now) }
{
    match schema.ty(id) {
        Ty::Uint(Width::W256) => None,
        Ty::Uint(width) => Some(read_uint(*width, bytes)),
        _ => None,
    }
}

/// The truth value, where the type is boolean.
pub fn boolean_in(schema: &Schema, id: TypeId, bytes: &[u8]) -> Option<bool>
    requires known { id < length schema.now.trees }
    requires short { length bytes.now < 2 ^ 32 }
    requires faultless { first_fault (type_of schema.now id) 0 bytes.now ≡ None }
    ensures { let t = type_of schema.now id in result ≡ boolean_of t (value_in t bytes.now) }
{
    match schema.ty(id) {
        Ty::Boolean => Some(bytes[0] == 1),
        _ => None,
    }
}
