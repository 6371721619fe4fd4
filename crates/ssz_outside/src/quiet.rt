// Files and a sink in memory that never fail.
ghost use Rattle.std.specs.Prelude.{◌≡◌, ◌≢◌, ◌≤◌, [], ◌∷◌, ◌++◌};
ghost use Rattle.std.specs.Prelude.{vec_len, Ok, Err, IfOk, OnOk, OnErr, option_map};
ghost use Rattle.std.specs.FinMap as map;
ghost use Rattle.ssz_outside.specs.Content.{file_bytes, quiet_content};
ghost use Rattle.ssz_outside.specs.Outcome.{Gets};
ghost use Rattle.ssz_outside.specs.Pieces.{text_of_pieces};

use crate::memory::read_held;
use crate::outside::{Files, GetFault, Got, PutFault, Sink};
use crate::store::Store;
use crate::tape::Tape;
use std::alloc::{AllocError, Global};
use std::marker::Model;

/// Files of which no name is absent: one that was never given holds no bytes.
#[derive(Drop)]
pub struct QuietFiles {
    store: Store,
}

impl Model for QuietFiles {
    ghost use Rattle.ssz_outside.specs.Content.{NamedBytes};
    ghost use Rattle.ssz_outside.specs.Memory.{named_code};

    ghost Value = { NamedBytes };

    ghost coded = { named_code };

    ghost view = { λ f. f.store };
}

impl QuietFiles {
    /// Files of which each name holds no bytes.
    pub fn new(alloc: Global) -> Result<Self, AllocError>
        ensures { IfOk result (λ files. files ≡ map.empty) }
    {
        Ok(QuietFiles {
            store: Store::new(alloc),
        })
    }

    /// Sets what a name holds.
    pub fn give(&mut self, name: &str, bytes: &[u8]) -> Result<(), AllocError>
        ensures ok { OnOk result (self.new ≡ map.insert self.old name.now bytes.now) }
        ensures err { OnErr result (self.new ≡ self.old) }
    {
        self.store.insert(name, bytes)
    }

    /// What a name holds, which is never `None`.
    pub fn held(&self, name: &str) -> Option<&[u8]>
        ensures { option_map (λ bytes. bytes.now) result
            ≡ file_bytes (quiet_content self.now) name.now }
    {
        Some(self.store.get(name).unwrap_or(&[]))
    }
}

impl Files for QuietFiles {
    ghost use Rattle.std.specs.Prelude.{None, Some, ⊤};
    ghost use Rattle.ssz_outside.specs.Content.{quiet_content};

    ghost content = { λ f. Some (quiet_content f) };

    ghost readable = { λ _ _. ⊤ };

    ghost get_faults = { λ _. 0 };

    ghost put_faults = { λ _. 0 };

    ghost asked = { λ _. None };

    ghost usable = { λ _. ⊤ };

    fn get(&mut self, name: &str, into: &mut Vec<u8>, max: u64) -> Result<Got, GetFault>
        requires { into.old.items ≡ [] }
        ensures never { result ≢ Err GetFault.Failed }
        ensures read { Gets (file_bytes (quiet_content self.old) name.now) max result
            into.new.items }
        ensures bound { result ≡ Ok Got.Whole → vec_len into.new ≤ max }
        ensures stays { self.new ≡ self.old }
    {
        match self.store.get(name) {
            Some(bytes) => read_held(bytes, into, max),
            None => Ok(Got::Whole),
        }
    }

    fn put(&mut self, name: &str, bytes: &[u8]) -> Result<(), PutFault>
        ensures never { result ≢ Err PutFault.Failed }
        ensures ok { OnOk result (self.new ≡ map.insert self.old name.now bytes.now) }
        ensures err { OnErr result (self.new ≡ self.old) }
    {
        self.store.insert(name, bytes)?;
        Ok(())
    }

    fn get_faults(&self) -> u64 {
        0
    }

    fn put_faults(&self) -> u64 {
        0
    }
}

/// A sink that tells what it has taken and never fails.
#[derive(Drop)]
pub struct QuietSink {
    tape: Tape,
}

impl Model for QuietSink {
    ghost use Rattle.std.specs.Prelude.{List, ℕ};

    ghost Value = { List (List ℕ) };

    ghost view = { λ s. s.tape };
}

impl QuietSink {
    /// A sink that has taken nothing.
    pub fn new(alloc: Global) -> Result<Self, AllocError>
        ensures { IfOk result (λ sink. sink ≡ []) }
    {
        Ok(QuietSink {
            tape: Tape::new(alloc),
        })
    }

    /// The text of all pieces that it has taken.
    pub fn taken(&self) -> &[u8]
        ensures { result.now ≡ text_of_pieces self.now }
    {
        self.tape.text()
    }
}

impl Sink for QuietSink {
    ghost use Rattle.std.specs.Prelude.{Some, false, ⊤};

    ghost pieces = { λ s. Some s };

    ghost faults = { λ _. 0 };

    ghost ample = { λ _. false };

    ghost usable = { λ _. ⊤ };

    fn put(&mut self, piece: &[u8]) -> Result<(), PutFault>
        ensures never { result ≢ Err PutFault.Failed }
        ensures ok { OnOk result (self.new ≡ self.old ++ piece.now ∷ []) }
        ensures err { OnErr result (self.new ≡ self.old) }
    {
        self.tape.append(piece)?;
        Ok(())
    }

    fn faults(&self) -> u64 {
        0
    }
}
