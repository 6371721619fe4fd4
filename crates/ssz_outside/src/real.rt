// The files of the system and a writer of std, each call counted where it fails.
ghost use Rattle.std.specs.Prelude.{◌≡◌, ◌≢◌, ◌≤◌, [], vec_len, Ok, Err, IsErrOf};
ghost use Rattle.ssz_outside.specs.Outcome.{next_count, CountsGet, CountsPut};
ghost use Rattle.ssz_outside.specs.Real.{WritesPiece};

use crate::outside::{Files, GetFault, Got, PutFault, Sink};
use crate::streams::{read_to_end, write_all};
use std::io::Write;
use std::marker::Model;
use std::{fs, rt};

/// The files of the system; a name is a path. They do not tell what they hold.
#[derive(Drop)]
pub struct DirFiles<R: rt::Files + Drop> {
    system: R,
    get_faults: u64,
    put_faults: u64,
}

impl<R: rt::Files + Drop> Model for DirFiles<R> {
    ghost use Rattle.ssz_outside.specs.Real.{DirState};

    ghost Value = { DirState };

    ghost view = { λ f. record { get_faults = f.get_faults; put_faults = f.put_faults } };
}

impl<R: rt::Files + Drop> DirFiles<R> {
    /// The files that a runtime reaches, with no fault counted.
    pub fn new(system: R) -> Self
        ensures { result ≡ record { get_faults = 0; put_faults = 0 } }
    {
        DirFiles {
            system,
            get_faults: 0,
            put_faults: 0,
        }
    }
}

fn read_path<R: rt::Files>(
    system: &R,
    path: &str,
    into: &mut Vec<u8>,
    max: u64,
) -> Result<Got, GetFault>
    requires { into.old.items ≡ [] }
    ensures bound { result ≡ Ok Got.Whole → vec_len into.new ≤ max }
{
    match fs::open(system, path) {
        Ok(mut file) => read_to_end(&mut file, into, max),
        Err(_) => Err(GetFault::Failed),
    }
}

fn write_path<R: rt::Files>(system: &R, path: &str, bytes: &[u8]) -> Result<(), PutFault> {
    match fs::create(system, path) {
        Ok(mut file) => write_all(&mut file, bytes),
        Err(_) => Err(PutFault::Failed),
    }
}

impl<R: rt::Files + Drop> Files for DirFiles<R> {
    ghost use Rattle.std.specs.Prelude.{None, ⊤};

    ghost content = { λ _. None };

    ghost readable = { λ _ _. ⊥ };

    ghost get_faults = { λ f. f.get_faults };

    ghost put_faults = { λ f. f.put_faults };

    ghost asked = { λ _. None };

    ghost usable = { λ _. ⊤ };

    fn get(&mut self, name: &str, into: &mut Vec<u8>, max: u64) -> Result<Got, GetFault>
        requires { into.old.items ≡ [] }
        ensures bound { result ≡ Ok Got.Whole → vec_len into.new ≤ max }
        ensures get_faults { CountsGet result self.old.get_faults self.new.get_faults }
        ensures once { IsErrOf result GetFault.Failed
            → self.new.get_faults ≡ next_count self.old.get_faults }
        ensures put_faults { self.new.put_faults ≡ self.old.put_faults }
    {
        match read_path(&self.system, name, into, max) {
            Err(GetFault::Failed) => {
                self.get_faults = self.get_faults.saturating_add(1);
                Err(GetFault::Failed)
            }
            Err(GetFault::Memory) => Err(GetFault::Memory),
            Ok(got) => Ok(got),
        }
    }

    fn put(&mut self, name: &str, bytes: &[u8]) -> Result<(), PutFault>
        ensures get_faults { self.new.get_faults ≡ self.old.get_faults }
        ensures put_faults { CountsPut result self.old.put_faults self.new.put_faults }
        ensures once { IsErrOf result PutFault.Failed
            → self.new.put_faults ≡ next_count self.old.put_faults }
    {
        match write_path(&self.system, name, bytes) {
            Err(_) => {
                self.put_faults = self.put_faults.saturating_add(1);
                Err(PutFault::Failed)
            }
            Ok(()) => Ok(()),
        }
    }

    fn get_faults(&self) -> u64 {
        self.get_faults
    }

    fn put_faults(&self) -> u64 {
        self.put_faults
    }
}

/// Text that goes to a writer of std. As a sink it does not tell what it has taken.
#[derive(Drop)]
pub struct OutSink<W: Write + Drop> {
    writer: W,
    faults: u64,
}

impl<W: Write + Drop> Model for OutSink<W> {
    ghost use Rattle.ssz_outside.specs.Real.{OutState};

    ghost Value = { OutState };

    ghost view = { λ s. record { written = W.contents s.writer; faults = s.faults } };
}

impl<W: Write + Drop> OutSink<W> {
    /// A sink over this writer, with no fault counted.
    pub fn new(writer: W) -> Self
        ensures { result ≡ record { written = W.contents writer; faults = 0 } }
    {
        OutSink { writer, faults: 0 }
    }
}

impl<W: Write + Drop> Sink for OutSink<W> {
    ghost use Rattle.std.specs.Prelude.{None, true, ⊤};

    ghost pieces = { λ _. None };

    ghost faults = { λ s. s.faults };

    ghost ample = { λ _. true };

    ghost usable = { λ _. ⊤ };

    fn put(&mut self, piece: &[u8]) -> Result<(), PutFault>
        ensures writes { WritesPiece result piece.now self.old.written self.new.written }
        ensures never { result ≢ Err PutFault.Memory }
        ensures faults { CountsPut result self.old.faults self.new.faults }
        ensures once { IsErrOf result PutFault.Failed
            → self.new.faults ≡ next_count self.old.faults }
    {
        match write_all(&mut self.writer, piece) {
            Err(_) => {
                self.faults = self.faults.saturating_add(1);
                Err(PutFault::Failed)
            }
            Ok(()) => Ok(()),
        }
    }

    fn faults(&self) -> u64 {
        self.faults
    }
}
