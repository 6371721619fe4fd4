// The fields of a container, by their places.
ghost use Rattle.std.specs.Prelude.{◌≡◌, ◌<◌, length, option_map};
ghost use Rattle.std.specs.Result.{result_map_both};
ghost use Rattle.ssz_schema.specs.Unfolding.{type_of};
ghost use Rattle.ssz_typed.specs.Fields.{field_in, field_name, fields_of_type};

use super::library::Library;
use ssz_said::{SszFault, status};
use ssz_schema::{Schema, Ty, TypeId};

// The name of the field at this place of a type, where it has one.
fn name_at<'a>(schema: &'a Schema, id: TypeId, place: u64) -> Option<&'a [u8]>
    requires { id < length schema.now.trees }
    ensures { option_map (λ name. name.now) result ≡ field_name (type_of schema.now id) place }
{
    match schema.ty(id) {
        Ty::Container(fields) => {
            if place >= fields.len() as u64 {
                return None;
            }
            Some(fields[place as usize].0.as_bytes())
        }
        _ => None,
    }
}

/// How many fields the type has.
pub fn fields(library: &Library, number: u64) -> Result<u64, SszFault>
    ensures { result ≡ fields_of_type library.now number }
{
    let id = library.type_at(number)?;
    match library.schema().ty(id) {
        Ty::Container(_) => Ok(library.schema().chunk_count(id)),
        _ => Ok(0),
    }
}

/// The name of the field at this place of the type.
pub fn field<'a>(library: &'a Library, number: u64, place: u64) -> Result<&'a [u8], SszFault>
    ensures { result_map_both (λ name. name.now) (λ fault. fault) result
        ≡ field_in library.now number place }
{
    let id = library.type_at(number)?;
    match name_at(library.schema(), id, place) {
        Some(name) => Ok(name),
        None => Err(SszFault::of(status::ABSENT)),
    }
}
