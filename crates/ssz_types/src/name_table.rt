ghost use Rattle.std.specs.Prelude.{◌≡◌, ℕ, List, [], Some, IfOk, OnOk, OnErr, bytes_eq, option_map, if◌then◌else◌};
ghost use Rattle.ssz_types.specs.Lookup.{lookup_name, name_for};
ghost use Rattle.ssz_types.specs.NameTables.{IsInOrder, AreFound};

use super::name::Name;
use super::type_id::TypeId;
use std::alloc::{AllocError, Global};
use std::collections::BTreeMap;
use std::marker::Model;

/// The names of a schema in byte order, each with its type.
#[derive(Drop)]
pub struct NameTable {
    alloc: Global,
    map: BTreeMap<Vec<u8>, TypeId>,
}

impl Model for NameTable {
    ghost use Rattle.std.specs.Prelude.{ℕ, List};

    ghost Value = { List (List ℕ × ℕ) };

    ghost use Rattle.ssz_types.specs.NameTables.{names_in};

    ghost view = { λ a. names_in a.map };
}

impl NameTable {
    pub fn new(alloc: Global) -> Self
        ensures { result ≡ [] }
    {
        NameTable {
            alloc,
            map: BTreeMap::new(alloc),
        }
    }

    /// The type of the name.
    pub fn find(&self, name: &[u8]) -> Option<TypeId>
        ensures { result ≡ lookup_name self.now name.now }
    {
        self.map.get(name).copied()
    }

    /// Gives the name to the type.
    pub fn insert(&mut self, name: &[u8], id: TypeId) -> Result<(), AllocError>
        ensures added { OnOk result ((other : List ℕ) → lookup_name self.new other
            ≡ (if bytes_eq other name.now then Some id else lookup_name self.old other)) }
        ensures kept { OnErr result (self.new ≡ self.old) }
    {
        let key = name.to_vec(self.alloc)?;
        self.map.insert(key, id)?;
        Ok(())
    }

    /// The names in byte order, each with its type.
    pub fn listed(&self, alloc: Global) -> Result<Vec<(Name, TypeId)>, AllocError>
        ensures exact { IfOk result (λ names. names.items ≡ self.now) }
        ensures order { IfOk result (λ names. IsInOrder names.items) }
        ensures found { IfOk result (λ names. AreFound names.items) }
    {
        let mut names = Vec::with_capacity(alloc, self.map.len())?;
        for (name, id) in self.map.iter() {
            names.push((Name::copy_of(alloc, name.as_slice())?, *id))?;
        }
        Ok(names)
    }

    /// The first name of the type in byte order.
    pub fn name_of(&self, id: TypeId) -> Option<&[u8]>
        ensures { option_map (λ name. name.now) result ≡ name_for self.now id }
    {
        for (name, named) in self.map.iter() {
            if *named == id {
                return Some(name.as_slice());
            }
        }
        None
    }

    /// A table of its own with these names.
    pub fn copied(&self, alloc: Global) -> Result<NameTable, AllocError>
        ensures { IfOk result (λ table. table ≡ self.now) }
    {
        Ok(NameTable {
            alloc,
            map: self.map.clone()?,
        })
    }
}
