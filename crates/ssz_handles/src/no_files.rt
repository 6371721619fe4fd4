// The files of a session, which has none.
ghost use Rattle.std.specs.Prelude.{◌≡◌, [], Err};
ghost use Rattle.ssz_outside.specs.Outcome.{CountsGet, CountsPut, Puts};

use ssz_outside::{Files, GetFault, Got, PutFault};

/// Files of which each name is absent and takes no bytes: every call fails, and is counted.
#[derive(Drop)]
pub struct NoFiles {
    pub reads: u64,
    pub writes: u64,
}

impl NoFiles {
    /// None, of which no call has failed yet.
    pub fn new() -> Self
        ensures reads { result.reads ≡ 0 }
        ensures writes { result.writes ≡ 0 }
    {
        NoFiles {
            reads: 0,
            writes: 0,
        }
    }
}

impl Files for NoFiles {
    ghost use Rattle.std.specs.Prelude.{None, Some, ⊤};
    ghost use Rattle.ssz_handles.specs.Scene.{no_files};

    ghost content = { λ _. Some no_files };

    ghost readable = { λ _ _. ⊥ };

    ghost get_faults = { λ f. f.reads };

    ghost put_faults = { λ f. f.writes };

    ghost asked = { λ _. None };

    ghost usable = { λ _. ⊤ };

    fn get(&mut self, _: &str, into: &mut Vec<u8>, _: u64) -> Result<Got, GetFault>
        requires { into.old.items ≡ [] }
        ensures failed { result ≡ Err GetFault.Failed }
        ensures reads { CountsGet result self.old.reads self.new.reads }
        ensures writes { self.new.writes ≡ self.old.writes }
    {
        self.reads = self.reads.saturating_add(1);
        Err(GetFault::Failed)
    }

    fn put(&mut self, name: &str, bytes: &[u8]) -> Result<(), PutFault>
        ensures failed { result ≡ Err PutFault.Failed }
        ensures held { Puts result name.now bytes.now (Some no_files) (Some no_files) }
        ensures reads { self.new.reads ≡ self.old.reads }
        ensures writes { CountsPut result self.old.writes self.new.writes }
    {
        self.writes = self.writes.saturating_add(1);
        Err(PutFault::Failed)
    }

    fn get_faults(&self) -> u64 {
        self.reads
    }

    fn put_faults(&self) -> u64 {
        self.writes
    }
}
