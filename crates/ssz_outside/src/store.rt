// Bytes by name, in memory.
ghost use Rattle.std.specs.Prelude.{◌≡◌, OnOk, OnErr, option_map};
ghost use Rattle.std.specs.FinMap as map;

use std::alloc::{AllocError, Global};
use std::collections::BTreeMap;
use std::marker::Model;

#[derive(Drop)]
pub struct Store {
    alloc: Global,
    entries: BTreeMap<String, Vec<u8>>,
}

impl Model for Store {
    ghost use Rattle.ssz_outside.specs.Content.{NamedBytes};
    ghost use Rattle.ssz_outside.specs.Memory.{named_code};
    ghost use Rattle.ssz_outside.specs.Stored.{named_of};

    ghost Value = { NamedBytes };

    ghost coded = { named_code };

    ghost view = { λ s. named_of s.entries };
}

impl Store {
    pub fn new(alloc: Global) -> Self
        ensures { result ≡ map.empty }
    {
        Store {
            alloc,
            entries: BTreeMap::new(alloc),
        }
    }

    pub fn get(&self, name: &str) -> Option<&[u8]>
        ensures { option_map (λ bytes. bytes.now) result ≡ map.get self.now name.now }
    {
        match self.entries.get(name) {
            Some(bytes) => Some(bytes),
            None => None,
        }
    }

    pub fn insert(&mut self, name: &str, bytes: &[u8]) -> Result<(), AllocError>
        ensures ok { OnOk result (self.new ≡ map.insert self.old name.now bytes.now) }
        ensures err { OnErr result (self.new ≡ self.old) }
    {
        let key = String::from_str(self.alloc, name)?;
        let value = Vec::from_slice(self.alloc, bytes)?;
        self.entries.insert(key, value)?;
        Ok(())
    }
}
