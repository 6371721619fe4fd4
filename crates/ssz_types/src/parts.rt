// The parts of a type: fields by name, options and elements by number.
ghost use Rattle.std.specs.Prelude.{◌≡◌, bytes_eq, Some, None, nat_lt, if◌then◌else◌, slice_index_or};
ghost use Rattle.std.specs.List.{position_from};
ghost use Rattle.ssz_types.specs.Legal.{is_wrong_size};

use super::name::Name;
use super::type_id::TypeId;

// The most options of a union.
const MOST_OPTIONS: usize = 128;

/// The number of the field of this name among the fields, or None exactly where none has it.
pub fn field_at(fields: &[(Name, TypeId)], name: &Name) -> Option<usize>
    ensures { result ≡ position_from (λ field. bytes_eq field.0 name.now) 0 fields.now }
{
    field_number(fields, name.as_bytes())
}

/// The same of a name that is lent.
pub fn field_number(fields: &[(Name, TypeId)], name: &[u8]) -> Option<usize>
    ensures { result ≡ position_from (λ field. bytes_eq field.0 name.now) 0 fields.now }
{
    fields
        .iter()
        .position(|field| is_same(field.0.as_bytes(), name))
}

// Whether two names are the same. Those of a container often begin alike, and `==` would then call
// a function that compares them whole: most differ in their length or their last byte.
fn is_same(a: &[u8], b: &[u8]) -> bool
    ensures { result ≡ bytes_eq a.now b.now }
{
    let count = a.len();
    if count != b.len() {
        return false;
    }
    if count > 0 && a[count - 1] != b[count - 1] {
        return false;
    }
    a == b
}

/// The type, where the number is below the length or limit.
pub fn if_below(i: u64, n: u64, id: TypeId) -> Option<TypeId>
    ensures { result ≡ (if nat_lt i n then Some id else None) }
{
    if i < n { Some(id) } else { None }
}

/// The type of the option of this number.
pub fn option_at(options: &[Option<TypeId>], number: usize) -> Option<TypeId>
    ensures { result ≡ slice_index_or options.now number None }
{
    if number < options.len() {
        options[number]
    } else {
        None
    }
}

/// Whether a union of so many options has none, or more than 128.
pub fn is_wrong_size(count: usize) -> bool
    ensures { result ≡ is_wrong_size count }
{
    count == 0 || count > MOST_OPTIONS
}
