// The numbers of the types that a type is made of, by their places.
ghost use Rattle.std.specs.Prelude.{◌≡◌, ◌<◌, ◌==◌, length, if◌then◌else◌, Some, None, option_map, slice_get, slice_index_or};
ghost use Rattle.ssz_typed.specs.Parts.{IsPartType, PartIsNumbered};
ghost use Rattle.ssz_typed.specs.Forms.{part_type_in};
ghost use Rattle.ssz_typed.specs.Sharing.{schema_in};

use super::library::Library;
use ssz_said::{SszFault, status};
use ssz_schema::{Name, Schema, Ty, TypeId};

// The type of the field at this place.
fn field_at(fields: &[(Name, TypeId)], place: u64) -> Option<TypeId>
    ensures { result ≡ option_map (λ part. part.1) (slice_get fields.now place) }
{
    if place >= fields.len() as u64 {
        return None;
    }
    Some(fields[place as usize].1)
}

// The type of the option at this place; the option None has none.
fn option_at(options: &[Option<TypeId>], place: u64) -> Option<TypeId>
    ensures { result ≡ slice_index_or options.now place None }
{
    if place >= options.len() as u64 {
        return None;
    }
    options[place as usize]
}

// The type of elements, which stands alone.
fn element_at(element: TypeId, place: u64) -> Option<TypeId>
    ensures { result ≡ (if place == 0 then Some element else None) }
{
    if place == 0 { Some(element) } else { None }
}

// The type at this place of those that a type is made of.
fn part_at(schema: &Schema, id: TypeId, place: u64) -> Option<TypeId>
    requires { id < length schema.now.trees }
    ensures { IsPartType schema.now id place result }
{
    match schema.ty(id) {
        Ty::Container(fields) => field_at(fields.as_slice(), place),
        Ty::Vector(element, _) => element_at(*element, place),
        Ty::List(element, _) => element_at(*element, place),
        Ty::Union(options) => option_at(options.as_slice(), place),
        Ty::Boolean | Ty::Uint(_) | Ty::Bitvector(_) | Ty::Bitlist(_) => None,
    }
}

impl Library {
    /// The number of the type at this place of those that a type is made of.
    pub fn number_of_part(&mut self, number: u64, place: u64) -> Result<u64, SszFault>
        ensures numbered { PartIsNumbered (part_type_in self.old number place) self.old self.new
            result }
        ensures schema { schema_in self.new ≡ schema_in self.old }
    {
        let id = self.type_at(number)?;
        match part_at(self.schema(), id, place) {
            Some(part) => self.numbered(part),
            None => Err(SszFault::of(status::ABSENT)),
        }
    }
}
