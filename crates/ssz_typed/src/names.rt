// The names of the types of a schema.
ghost use Rattle.std.specs.Prelude.{◌≡◌, ◌++◌, ◌∷◌, [], IfOk, OnOk};
ghost use Rattle.std.specs.Result.{result_map_both};
ghost use Rattle.ssz_said.specs.Outcome.{IsUnlessMemory};
ghost use Rattle.ssz_schema.specs.NameTables.{IsInOrder};
ghost use Rattle.ssz_typed.specs.Names.{name_lines, names_in, type_name_in};
ghost use Rattle.ssz_typed.specs.Sharing.{schema_in};

use super::library::Library;
use ssz_said::{SszFault, status};
use ssz_schema::{Name, Schema, TypeId};
use std::alloc::{AllocError, Global};

// Appends a name and a line feed.
fn push_name(text: &mut Vec<u8>, name: &[u8]) -> Result<(), AllocError>
    ensures { OnOk result (text.new.items ≡ text.old.items ++ (name.now ++ 10 ∷ [])) }
{
    text.extend_from_slice(name)?;
    text.push(b'\n')?;
    Ok(())
}

// The names in their order, a line feed behind each.
fn lines_of(alloc: Global, names: &[(Name, TypeId)]) -> Result<Vec<u8>, AllocError>
    ensures { IfOk result (λ text. text.items ≡ name_lines names.now) }
{
    let mut text = Vec::new(alloc);
    for part in names {
        push_name(&mut text, part.0.as_bytes())?;
    }
    Ok(text)
}

// All names of a schema, which are in byte order.
fn lines_in(alloc: Global, schema: &Schema) -> Result<Vec<u8>, AllocError>
    ensures exact { IfOk result (λ text. text.items ≡ name_lines schema.now.names) }
    ensures order { IfOk result (λ text. IsInOrder schema.now.names) }
{
    let names = schema.names(alloc)?;
    lines_of(alloc, names.as_slice())
}

/// All names of the schema in byte order, a line feed behind each.
pub fn names(alloc: Global, library: &Library) -> Result<Vec<u8>, SszFault>
    ensures exact { IsUnlessMemory (result_map_both (λ text. text.items) (λ fault. fault) result)
        (names_in library.now) }
    ensures order { IfOk result (λ text. IsInOrder (schema_in library.now).names) }
{
    Ok(lines_in(alloc, library.schema())?)
}

/// The first name of the type in byte order.
pub fn type_name<'a>(library: &'a Library, number: u64) -> Result<&'a [u8], SszFault>
    ensures { result_map_both (λ name. name.now) (λ fault. fault) result
        ≡ type_name_in library.now number }
{
    let id = library.type_at(number)?;
    match library.schema().name_of(id) {
        Some(name) => Ok(name),
        None => Err(SszFault::of(status::ABSENT)),
    }
}
