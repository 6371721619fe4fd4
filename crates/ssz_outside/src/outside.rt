// Files and a sink as a program sees them: what each answer says, and what is counted.
ghost use Rattle.std.specs.Prelude.{◌≡◌, ◌≢◌, ℕ, ◌≤◌, List, [], ◌∷◌, Bool, false, is_err, vec_len, Ok, Err, IfSome, OnOk};
ghost use Rattle.std.specs.declared.option.Option.{Option};
ghost use Rattle.ssz_outside.specs.Content.{CanRead, Content, file_bytes};
ghost use Rattle.ssz_outside.specs.Asked.{AsksOf};
ghost use Rattle.ssz_outside.specs.Outcome.{Gets, CountsGet, Puts, CountsPut, SinkTakes};
ghost use Rattle.ssz_outside.specs.declared.outside.PutFault.TheVariants as put_fault;

use std::alloc::{AllocError, AllocFailed};

/// What a `get` read.
#[derive(Clone, Copy, Debug, PartialEq, Eq)]
pub enum Got {
    /// All the bytes that the name holds.
    Whole,
    /// The name holds more bytes than were asked for at most.
    TooLong,
}

/// Why a `get` read nothing.
#[derive(Clone, Copy, Debug, PartialEq, Eq)]
pub enum GetFault {
    /// The outside failed, as at an absent name. This alone is counted.
    Failed,
    /// There was no memory for the bytes.
    Memory,
}

/// Why a `put` did not take all its bytes.
#[derive(Clone, Copy, Debug, PartialEq, Eq)]
pub enum PutFault {
    /// The outside failed. This alone is counted.
    Failed,
    /// There was no memory for the bytes. Nothing has changed.
    Memory,
}

impl From<AllocError> for PutFault {
    ghost from_gives = { λ _ fault. fault ≡ put_fault.Memory };

    fn from(_: AllocError) -> Self {
        PutFault::Memory
    }
}

impl<T: Drop> From<AllocFailed<T>> for PutFault {
    ghost from_gives = { λ _ fault. fault ≡ put_fault.Memory };

    fn from(_: AllocFailed<T>) -> Self {
        PutFault::Memory
    }
}

/// Files by name, with a count of the `get`s and one of the `put`s that failed. A count never falls
/// and stands still at `u64::MAX`. What the files hold is told to contracts, or not; no call
/// changes whether it is told, nor what an absent name reads as, nor whether it is told that a
/// `get` fails of an absent name alone. So it is of what they were asked for. After a call that
/// failed or ran out of memory they are not asked and not given anything again.
pub trait Files {
    // What the files hold, where they tell it.
    ghost content: { Self → Option Content };

    // From now on no `get` of this name fails.
    ghost readable: { Self → List ℕ → Type 0 };

    // How many `get`s have failed.
    ghost get_faults: { Self → ℕ };

    // How many `put`s have failed.
    ghost put_faults: { Self → ℕ };

    // What they were asked for, name by name with its limit, where they tell it.
    ghost asked: { Self → Option (List (List ℕ × ℕ)) };

    // They may be asked and given something: so after each call that did what it was asked to. Of
    // others, which failed or ran out of memory, it is not known.
    ghost usable: { Self → Type 0 };

    /// Reads what a name holds, at most `max` bytes, into an empty vector. An absent name is a
    /// `Failed`. Where the answer is not `Whole`, it is not said what the vector holds.
    fn get(&mut self, name: &str, into: &mut Vec<u8>, max: u64) -> Result<Got, GetFault>
        requires empty { into.old.items ≡ [] }
        requires usable { usable self.old }
        ensures read { IfSome (content self.old)
            (λ held. Gets (file_bytes held name.now) max result into.new.items) }
        ensures bound { result ≡ Ok Got.Whole → vec_len into.new ≤ max }
        ensures content { content self.new ≡ content self.old }
        ensures fails { readable self.old name.now → result ≢ Err GetFault.Failed }
        ensures present { CanRead (content self.old) name.now → result ≢ Err GetFault.Failed }
        ensures readable { (other : List ℕ) → readable self.old other → readable self.new other }
        ensures get_faults { CountsGet result (get_faults self.old) (get_faults self.new) }
        ensures put_faults { put_faults self.new ≡ put_faults self.old }
        ensures asked { AsksOf (is_err result) ((name.now, max) ∷ []) (asked self.old)
            (asked self.new) }
        ensures usable { OnOk result (usable self.new) };

    /// Gives a name these bytes. After `Failed` the name holds what it held, or a prefix of the
    /// bytes; after `Memory` what it held. All other names stay.
    fn put(&mut self, name: &str, bytes: &[u8]) -> Result<(), PutFault>
        requires usable { usable self.old }
        ensures content { Puts result name.now bytes.now (content self.old) (content self.new) }
        ensures readable { (other : List ℕ) → readable self.old other → readable self.new other }
        ensures get_faults { get_faults self.new ≡ get_faults self.old }
        ensures put_faults { CountsPut result (put_faults self.old) (put_faults self.new) }
        ensures asked { asked self.new ≡ asked self.old }
        ensures usable { OnOk result (usable self.new) };

    /// How many `get`s have failed.
    fn get_faults(&self) -> u64
        ensures { result ≡ get_faults self.now };

    /// How many `put`s have failed.
    fn put_faults(&self) -> u64
        ensures { result ≡ put_faults self.now };
}

/// Where printed text goes, a piece at a time, with a count of the `put`s that failed. The count
/// never falls and stands still at `u64::MAX`. No call changes whether it always finds memory.
/// After a `put` that failed or ran out of memory nothing is put again.
pub trait Sink {
    // The pieces taken so far, where the sink tells them.
    ghost pieces: { Self → Option (List (List ℕ)) };

    // How many `put`s have failed.
    ghost faults: { Self → ℕ };

    // Whether every `put` finds memory for its piece.
    ghost ample: { Self → Bool };

    // Something may be put: so after each `put` that took its piece. Of others it is not known.
    ghost usable: { Self → Type 0 };

    /// Takes the whole piece. A `Failed` has taken a prefix of it, perhaps nothing, and `Memory`
    /// nothing. A sink that takes nothing of a piece that is not empty has failed.
    fn put(&mut self, piece: &[u8]) -> Result<(), PutFault>
        requires usable { usable self.old }
        ensures pieces { SinkTakes result piece.now (pieces self.old) (pieces self.new) }
        ensures faults { CountsPut result (faults self.old) (faults self.new) }
        ensures memory { result ≡ Err PutFault.Memory → ample self.old ≡ false }
        ensures ample { ample self.new ≡ ample self.old }
        ensures usable { OnOk result (usable self.new) };

    /// How many `put`s have failed.
    fn faults(&self) -> u64
        ensures { result ≡ faults self.now };
}
