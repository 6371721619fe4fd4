// Files and a sink in memory, which fail at the calls that they are told.
ghost use Rattle.std.specs.Prelude.{◌≡◌, ◌≢◌, ◌≤◌, ◌⊎◌, List, ℕ, [], ◌∷◌, is_err, vec_len};
ghost use Rattle.std.specs.Prelude.{Some, Err, IfOk, OnOk, OnErr, IsErrOf, IsNone, option_map};
ghost use Rattle.std.specs.FinMap as map;
ghost use Rattle.ssz_outside.specs.Asked.{AsksOf};
ghost use Rattle.ssz_outside.specs.Memory.{is_listed};
ghost use Rattle.ssz_outside.specs.Outcome.{next_count, Gets, CountsGet, CountsPut};
ghost use Rattle.ssz_outside.specs.Pieces.{text_of_pieces};

use crate::log::Log;
use crate::outside::{Files, GetFault, Got, PutFault, Sink};
use crate::store::Store;
use crate::tape::Tape;
use std::alloc::{AllocError, Global};
use std::marker::Model;

/// Files in memory, which tell what they hold and fail at the calls that they are told. A name that
/// was never given or put is absent.
#[derive(Drop)]
pub struct MemFiles {
    store: Store,
    failing: Vec<u64>,
    calls: u64,
    get_faults: u64,
    put_faults: u64,
    log: Log,
}

impl Model for MemFiles {
    ghost use Rattle.ssz_outside.specs.Memory.{FilesState, files_code};

    ghost Value = { FilesState };

    ghost coded = { files_code };

    ghost view = { λ f. record {
      named = f.store;
      failing = f.failing.items;
      calls = f.calls;
      get_faults = f.get_faults;
      put_faults = f.put_faults;
      asked = f.log;
    } };
}

impl MemFiles {
    /// Files that hold nothing, at which the calls with these numbers fail. Calls of `get` and of
    /// `put` are counted together, and the first has number 1.
    pub fn new(alloc: Global, fails: &[u64]) -> Result<Self, AllocError>
        ensures { IfOk result (λ files. files ≡ record {
          named = map.empty;
          failing = fails.now;
          calls = 0;
          get_faults = 0;
          put_faults = 0;
          asked = [];
        }) }
    {
        Ok(MemFiles {
            store: Store::new(alloc),
            failing: Vec::from_slice(alloc, fails)?,
            calls: 0,
            get_faults: 0,
            put_faults: 0,
            log: Log::new(alloc),
        })
    }

    /// Sets what a name holds. It is no counted call.
    pub fn give(&mut self, name: &str, bytes: &[u8]) -> Result<(), AllocError>
        ensures ok { OnOk result
            (self.new ≡ record self.old { named = map.insert self.old.named name.now bytes.now }) }
        ensures err { OnErr result (self.new ≡ self.old) }
    {
        self.store.insert(name, bytes)
    }

    /// What a name holds, `None` exactly where it is absent. It is no counted call.
    pub fn held(&self, name: &str) -> Option<&[u8]>
        ensures { option_map (λ bytes. bytes.now) result ≡ map.get self.now.named name.now }
    {
        self.store.get(name)
    }
}

// Counts a call, and answers whether it is to fail.
fn next_fails(failing: &[u64], calls: &mut u64) -> bool
    ensures calls { calls.new ≡ next_count calls.old }
    ensures fails { result ≡ is_listed failing.now calls.new }
{
    *calls = calls.saturating_add(1);
    failing.contains(calls)
}

impl Files for MemFiles {
    ghost use Rattle.std.specs.Prelude.{Some, ⊤};
    ghost use Rattle.ssz_outside.specs.Content.{CanRead};
    ghost use Rattle.ssz_outside.specs.Memory.{IsListed, IsReadable, PutsHalf, content_of};

    ghost content = { λ f. Some (content_of f) };

    ghost readable = { IsReadable };

    ghost get_faults = { λ f. f.get_faults };

    ghost put_faults = { λ f. f.put_faults };

    ghost asked = { λ f. Some f.asked };

    ghost usable = { λ _. ⊤ };

    // It fails exactly at a listed call and at an absent name.
    fn get(&mut self, name: &str, into: &mut Vec<u8>, max: u64) -> Result<Got, GetFault>
        requires { into.old.items ≡ [] }
        ensures failed { IsErrOf result GetFault.Failed
            → IsListed self.old ⊎ IsNone (map.get self.old.named name.now) }
        ensures listed { IsListed self.old → IsErrOf result GetFault.Failed }
        ensures present { CanRead (Some (content_of self.old)) name.now
            → result ≢ Err GetFault.Failed }
        ensures readable { (other : List ℕ)
            → IsReadable self.old other → IsReadable self.new other }
        ensures absent { IsNone (map.get self.old.named name.now) → IsErrOf result GetFault.Failed }
        ensures read { Gets (map.get self.old.named name.now) max result into.new.items }
        ensures bound { result ≡ Ok Got.Whole → vec_len into.new ≤ max }
        ensures get_faults { CountsGet result self.old.get_faults self.new.get_faults }
        ensures once { IsErrOf result GetFault.Failed
            → self.new.get_faults ≡ next_count self.old.get_faults }
        ensures asked { AsksOf (is_err result) ((name.now, max) ∷ []) (Some self.old.asked)
            (Some self.new.asked) }
        ensures rest { self.new ≡ record self.old {
          calls = next_count self.old.calls;
          get_faults = self.new.get_faults;
          asked = self.new.asked;
        } }
    {
        if next_fails(&self.failing, &mut self.calls) {
            self.get_faults = self.get_faults.saturating_add(1);
            return Err(GetFault::Failed);
        }
        match self.store.get(name) {
            Some(bytes) => read_logged(&mut self.log, name, bytes, into, max),
            None => {
                self.get_faults = self.get_faults.saturating_add(1);
                Err(GetFault::Failed)
            }
        }
    }

    // A listed call leaves the first half of the bytes, and fails.
    fn put(&mut self, name: &str, bytes: &[u8]) -> Result<(), PutFault>
        ensures failed { IsErrOf result PutFault.Failed → IsListed self.old }
        ensures ok { OnOk result (¬ IsListed self.old) }
        ensures readable { (other : List ℕ)
            → IsReadable self.old other → IsReadable self.new other }
        ensures named { PutsHalf result name.now bytes.now self.old.named self.new.named }
        ensures put_faults { CountsPut result self.old.put_faults self.new.put_faults }
        ensures once { IsErrOf result PutFault.Failed
            → self.new.put_faults ≡ next_count self.old.put_faults }
        ensures rest { self.new ≡ record self.old {
          named = self.new.named;
          calls = next_count self.old.calls;
          put_faults = self.new.put_faults;
        } }
    {
        if next_fails(&self.failing, &mut self.calls) {
            let half = &bytes[..bytes.len() / 2];
            self.store.insert(name, half)?;
            self.put_faults = self.put_faults.saturating_add(1);
            return Err(PutFault::Failed);
        }
        self.store.insert(name, bytes)?;
        Ok(())
    }

    fn get_faults(&self) -> u64 {
        self.get_faults
    }

    fn put_faults(&self) -> u64 {
        self.put_faults
    }
}

// Notes what is asked for, and reads bytes that are in memory.
fn read_logged(
    log: &mut Log,
    name: &str,
    bytes: &[u8],
    into: &mut Vec<u8>,
    max: u64,
) -> Result<Got, GetFault>
    requires { into.old.items ≡ [] }
    ensures read { Gets (Some bytes.now) max result into.new.items }
    ensures bound { result ≡ Ok Got.Whole → vec_len into.new ≤ max }
    ensures never { IsErrOf result GetFault.Failed → ⊥ }
    ensures asked { AsksOf (is_err result) ((name.now, max) ∷ []) (Some log.old) (Some log.new) }
{
    if log.append(name, max).is_err() {
        return Err(GetFault::Memory);
    }
    read_held(bytes, into, max)
}

// Reads bytes that are in memory.
pub fn read_held(bytes: &[u8], into: &mut Vec<u8>, max: u64) -> Result<Got, GetFault>
    requires { into.old.items ≡ [] }
    ensures read { Gets (Some bytes.now) max result into.new.items }
    ensures bound { result ≡ Ok Got.Whole → vec_len into.new ≤ max }
    ensures never { IsErrOf result GetFault.Failed → ⊥ }
{
    if bytes.len() as u64 > max {
        return Ok(Got::TooLong);
    }
    match into.extend_from_slice(bytes) {
        Ok(()) => Ok(Got::Whole),
        Err(_) => Err(GetFault::Memory),
    }
}

/// A sink in memory, which tells what it has taken and fails at the calls that it is told.
#[derive(Drop)]
pub struct MemSink {
    tape: Tape,
    failing: Vec<u64>,
    calls: u64,
    faults: u64,
}

impl Model for MemSink {
    ghost use Rattle.ssz_outside.specs.Memory.{SinkState};

    ghost Value = { SinkState };

    ghost view = { λ s. record {
      pieces = s.tape;
      failing = s.failing.items;
      calls = s.calls;
      faults = s.faults;
    } };
}

impl MemSink {
    /// A sink that has taken nothing, at which the calls of `put` with these numbers fail. The
    /// first call has number 1.
    pub fn new(alloc: Global, fails: &[u64]) -> Result<Self, AllocError>
        ensures { IfOk result
            (λ sink. sink ≡ record {
              pieces = [];
              failing = fails.now;
              calls = 0;
              faults = 0;
            }) }
    {
        Ok(MemSink {
            tape: Tape::new(alloc),
            failing: Vec::from_slice(alloc, fails)?,
            calls: 0,
            faults: 0,
        })
    }

    /// The text of all pieces that it has taken.
    pub fn taken(&self) -> &[u8]
        ensures { result.now ≡ text_of_pieces self.now.pieces }
    {
        self.tape.text()
    }
}

impl Sink for MemSink {
    ghost use Rattle.std.specs.Prelude.{Some, false, ⊤};
    ghost use Rattle.ssz_outside.specs.Memory.{IsListedPut, TakesHalf};

    ghost pieces = { λ s. Some s.pieces };

    ghost faults = { λ s. s.faults };

    ghost ample = { λ _. false };

    ghost usable = { λ _. ⊤ };

    // A listed call takes the first half of the piece, and fails.
    fn put(&mut self, piece: &[u8]) -> Result<(), PutFault>
        ensures failed { IsErrOf result PutFault.Failed → IsListedPut self.old }
        ensures ok { OnOk result (¬ IsListedPut self.old) }
        ensures pieces { TakesHalf result piece.now self.old.pieces self.new.pieces }
        ensures faults { CountsPut result self.old.faults self.new.faults }
        ensures once { IsErrOf result PutFault.Failed
            → self.new.faults ≡ next_count self.old.faults }
        ensures rest { self.new ≡ record self.old {
          pieces = self.new.pieces;
          calls = next_count self.old.calls;
          faults = self.new.faults;
        } }
    {
        if next_fails(&self.failing, &mut self.calls) {
            let half = &piece[..piece.len() / 2];
            self.tape.append(half)?;
            self.faults = self.faults.saturating_add(1);
            return Err(PutFault::Failed);
        }
        self.tape.append(piece)?;
        Ok(())
    }

    fn faults(&self) -> u64 {
        self.faults
    }
}
