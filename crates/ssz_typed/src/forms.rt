// What a type is: its form, its length or limit, and how many types it is made of.
ghost use Rattle.std.specs.Prelude.{◌≡◌, ◌<◌, length};
ghost use Rattle.ssz_schema.specs.Unfolding.{type_of};
ghost use Rattle.ssz_typed.specs.Forms.{form_in, form_number, limit_in, form_limit, parts_count, parts_in};

use super::library::Library;
use ssz_said::{SszFault, status};
use ssz_schema::{Schema, Ty, TypeId};

/// A truth value.
pub const BOOLEAN: u32 = 1;

/// A number; the size of the type tells its bits.
pub const UINT: u32 = 2;

/// Fields, each with its name and type.
pub const CONTAINER: u32 = 3;

/// So many values of one type as its length says.
pub const VECTOR: u32 = 4;

/// At most so many values of one type as its limit says.
pub const LIST: u32 = 5;

/// So many bits as its length says.
pub const BITVECTOR: u32 = 6;

/// At most so many bits as its limit says.
pub const BITLIST: u32 = 7;

/// A value of one of its options.
pub const UNION: u32 = 8;

/// The form of the type.
pub fn form(library: &Library, number: u64) -> Result<u32, SszFault>
    ensures { result ≡ form_in library.now number }
{
    let id = library.type_at(number)?;
    Ok(form_of(library.schema(), id))
}

fn form_of(schema: &Schema, id: TypeId) -> u32
    requires { id < length schema.now.trees }
    ensures { result ≡ form_number (type_of schema.now id) }
{
    match schema.ty(id) {
        Ty::Boolean => BOOLEAN,
        Ty::Uint(_) => UINT,
        Ty::Container(_) => CONTAINER,
        Ty::Vector(_, _) => VECTOR,
        Ty::List(_, _) => LIST,
        Ty::Bitvector(_) => BITVECTOR,
        Ty::Bitlist(_) => BITLIST,
        Ty::Union(_) => UNION,
    }
}

/// The length of a vector or bitvector, or the limit of a list or bitlist.
pub fn limit(library: &Library, number: u64) -> Result<u64, SszFault>
    ensures { result ≡ limit_in library.now number }
{
    let id = library.type_at(number)?;
    match limit_at(library.schema(), id) {
        Some(limit) => Ok(limit),
        None => Err(SszFault::of(status::ABSENT)),
    }
}

fn limit_at(schema: &Schema, id: TypeId) -> Option<u64>
    requires { id < length schema.now.trees }
    ensures { result ≡ form_limit (type_of schema.now id) }
{
    match schema.ty(id) {
        Ty::Vector(_, n) => Some(*n),
        Ty::List(_, limit) => Some(*limit),
        Ty::Bitvector(n) => Some(*n),
        Ty::Bitlist(limit) => Some(*limit),
        Ty::Boolean | Ty::Uint(_) | Ty::Container(_) | Ty::Union(_) => None,
    }
}

/// How many types the type is made of: its fields, its options, or the one of its elements.
pub fn parts(library: &Library, number: u64) -> Result<u64, SszFault>
    ensures { result ≡ parts_in library.now number }
{
    let id = library.type_at(number)?;
    Ok(parts_at(library.schema(), id))
}

fn parts_at(schema: &Schema, id: TypeId) -> u64
    requires { id < length schema.now.trees }
    ensures { result ≡ parts_count (type_of schema.now id) }
{
    match schema.ty(id) {
        Ty::Container(_) => schema.chunk_count(id),
        Ty::Vector(_, _) => 1,
        Ty::List(_, _) => 1,
        Ty::Union(options) => options.len() as u64,
        Ty::Boolean | Ty::Uint(_) | Ty::Bitvector(_) | Ty::Bitlist(_) => 0,
    }
}
