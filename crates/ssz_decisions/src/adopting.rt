// The versions that a weave begins with.
ghost use Rattle.std.specs.Prelude.{◌≡◌, ◌≤◌, ◌<◌, ℕ, OnOk, OnErr};
ghost use Rattle.ssz_versions.specs.Outcomes.{Adopts};
ghost use Rattle.ssz_machine.specs.Plays.{base_writer};
ghost use Rattle.ssz_decisions.specs.Content.{SameNodes};
ghost use Rattle.ssz_decisions.specs.Adopted.{AdoptsAll, AdoptsSome};
ghost use Rattle.ssz_decisions.specs.Standing.{HoldsNone};

use super::fronts::BASE;
use super::store::Store;
use ssz_chunk::PairHash;
use ssz_versions::Writer;
use std::alloc::AllocError;

// Gives a writer that holds nothing what the base's writer holds.
fn adopt<H: PairHash>(store: &mut Store<H>, writer: Writer) -> Result<(), AllocError>
    requires { HoldsNone store.old.entries writer.0 }
    ensures nodes { SameNodes store.old store.new }
    ensures ok { OnOk result (Adopts store.old.entries store.new.entries base_writer writer.0) }
    ensures err { OnErr result (store.new.entries ≡ store.old.entries) }
{
    store.versions.adopt(BASE, writer)
}

/// Gives the writers of so many scripts what the base's writer holds.
pub fn adopt_all<H: PairHash>(store: &mut Store<H>, count: usize) -> Result<(), AllocError>
    requires few { count ≤ base_writer }
    requires none { (writer : ℕ) → writer < count → HoldsNone store.old.entries writer }
    ensures nodes { SameNodes store.old store.new }
    ensures ok { OnOk result (AdoptsAll count store.old.entries store.new.entries) }
    ensures err { OnErr result (AdoptsSome count store.old.entries store.new.entries) }
{
    for number in 0..count {
        adopt(store, Writer(number as u8))?;
    }
    Ok(())
}
