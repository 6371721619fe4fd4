// A schema of C: read, and its types by name and by number.
ghost use Rattle.std.specs.Prelude.{◌≡◌, [], ◌∷◌, ◌++◌, ◌<◌, ◌^◌, length, IfOk, OnErr};
ghost use Rattle.ssz_typed.specs.Numbers.{IsNumberFound, IsNew};
ghost use Rattle.ssz_typed.specs.Library.{NumbersName, Numbers, ReadsLibrary, ReadsTypes, fault_of_read, type_for, type_in};
ghost use Rattle.ssz_typed.specs.Sharing.{IsShared, schema_in};

use super::library::{Library, SharedSchema};
use ssz_chunk::{ShaPair, ZeroTable};
use ssz_said::{SszFault, status};
use ssz_schema::{Schema, TypeId};
use ssz_schema_json::{SchemaRead, read_schema};
use std::alloc::{AllocError, Global};
use std::sync::Arc;

/// The types that the bytes of a schema file define.
pub fn read_types(alloc: Global, bytes: &[u8]) -> Result<Schema, SszFault>
    ensures { ReadsTypes result bytes.now }
{
    if bytes.len() > status::MOST_TEXT {
        return Err(SszFault {
            status: status::BAD_SCHEMA,
            code: 15,
            position: 0,
        });
    }
    match read_schema(alloc, bytes) {
        Ok(schema) => Ok(schema),
        Err(fault) => Err(schema_fault(fault)),
    }
}

impl Library {
    /// The schema.
    pub fn schema(&self) -> &Schema
        ensures { result.now ≡ schema_in self.now }
    {
        &self.shared.schema
    }

    // With no type asked for yet.
    fn of_schema(alloc: Global, schema: Schema) -> Result<Library, AllocError>
        ensures schema { IfOk result (λ library. schema_in library ≡ schema) }
        ensures found { IfOk result (λ library. library.found.items ≡ []) }
    {
        let mut hasher = ShaPair::new();
        let zeros = ZeroTable::new(&mut hasher);
        Ok(Library {
            shared: Arc::new(alloc, SharedSchema { schema, zeros })?,
            found: Vec::new(alloc),
        })
    }

    /// The schema that the bytes of a schema file define, with no type asked for yet.
    pub fn read(alloc: Global, bytes: &[u8]) -> Result<Library, SszFault>
        ensures { ReadsLibrary result bytes.now }
    {
        let schema = read_types(alloc, bytes)?;
        Ok(Library::of_schema(alloc, schema)?)
    }

    /// Another one on the same schema, whose types have the same numbers.
    pub fn share(&self, alloc: Global) -> Result<Library, AllocError>
        ensures { IfOk result (IsShared self.now) }
    {
        Ok(Library {
            shared: Arc::try_clone(&self.shared)?,
            found: self.found.iter().copied().collect(alloc)?,
        })
    }

    /// The type of this number.
    pub fn type_at(&self, number: u64) -> Result<TypeId, SszFault>
        ensures exact { result ≡ type_in self.now number }
        ensures known { IfOk result (λ id. id < length (schema_in self.now).trees) }
    {
        if number >= self.found.len() as u64 {
            return Err(SszFault::of(status::NO_TYPE));
        }
        Ok(self.found[number as usize])
    }

    /// The type of this number, where the bytes are not too many.
    pub fn type_for(&self, number: u64, bytes: &[u8]) -> Result<TypeId, SszFault>
        ensures exact { result ≡ type_for self.now number bytes.now }
        ensures known { IfOk result (λ id. id < length (schema_in self.now).trees) }
        ensures short { IfOk result (λ id. length bytes.now < 2 ^ 32) }
    {
        let id = self.type_at(number)?;
        if bytes.len() > status::MOST_BYTES {
            return Err(SszFault::of(status::TOO_LONG));
        }
        Ok(id)
    }

    /// The number of the type of this name: its own number, if it has one, or the next.
    pub fn number_of(&mut self, name: &[u8]) -> Result<u64, SszFault>
        ensures names { NumbersName name.now self.old self.new result }
        ensures schema { schema_in self.new ≡ schema_in self.old }
    {
        let Ok(name) = std::str::from_utf8(name) else {
            return Err(SszFault::of(status::NO_TYPE));
        };
        let Some(id) = self.schema().find(name) else {
            return Err(SszFault::of(status::NO_TYPE));
        };
        self.numbered(id)
    }

    // The number of a type: its own, if it has one, or the next.
    pub(crate) fn numbered(&mut self, id: TypeId) -> Result<u64, SszFault>
        requires { id < length (schema_in self.old).trees }
        ensures numbers { Numbers id self.old self.new result }
        ensures schema { schema_in self.new ≡ schema_in self.old }
    {
        if let Some(number) = place_of(self.found.as_slice(), id) {
            return Ok(number);
        }
        Ok(self.add(id)?)
    }

    // Gives a type the next number.
    fn add(&mut self, id: TypeId) -> Result<u64, AllocError>
        requires known { id < length (schema_in self.old).trees }
        requires fresh { IsNew self.old.found.items id }
        ensures added { IfOk result (λ number.
            (number ≡ length self.old.found.items)
            × (self.new.found.items ≡ self.old.found.items ++ id ∷ [])) }
        ensures schema { schema_in self.new ≡ schema_in self.old }
        ensures kept { OnErr result (self.new.found.items ≡ self.old.found.items) }
    {
        let number = self.found.len() as u64;
        self.found.push(id)?;
        Ok(number)
    }
}

// The place of a type among those that have a number.
fn place_of(found: &[TypeId], id: TypeId) -> Option<u64>
    ensures { IsNumberFound found.now id result }
{
    for k in 0..found.len() {
        if found[k] == id {
            return Some(k as u64);
        }
    }
    None
}

// The fault of a schema as C reads it.
fn schema_fault(fault: SchemaRead) -> SszFault
    ensures { result ≡ fault_of_read fault }
{
    match fault {
        SchemaRead::NotJson => SszFault {
            status: status::BAD_SCHEMA,
            code: 1,
            position: 0,
        },
        SchemaRead::Shape => SszFault {
            status: status::BAD_SCHEMA,
            code: 2,
            position: 0,
        },
        SchemaRead::Def { number, fault } => SszFault {
            status: status::BAD_SCHEMA,
            code: u32::from(fault.code()),
            position: number as u64,
        },
        SchemaRead::Memory => SszFault::of(status::NO_MEMORY),
    }
}
