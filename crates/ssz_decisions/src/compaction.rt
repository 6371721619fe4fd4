// `compact`: nodes that no version reaches are given up.
ghost use Rattle.std.specs.Prelude.{◌≡◌, ◌++◌, OnOk, OnErr};
ghost use Rattle.ssz_script.specs.Texts.{reply_line};
ghost use Rattle.ssz_script.specs.declared.reply.Reply.TheVariants.{Done};
ghost use Rattle.ssz_versions.specs.Compacted.{IsCompacted};
ghost use Rattle.ssz_decisions.specs.Content.{KeepsEngine};

use super::carrying::say_done;
use super::store::Store;
use ssz_chunk::PairHash;
use std::alloc::AllocError;

/// Moves what the versions of all writers reach into a fresh arena, and appends the line of the
/// reply. All memory is taken before anything is changed.
pub fn compact<H: PairHash>(store: &mut Store<H>, out: &mut Vec<u8>) -> Result<(), AllocError>
    ensures keeps { KeepsEngine store.old store.new }
    ensures ok { OnOk result (IsCompacted store.old.entries store.new.entries store.old.arena
        store.new.arena) }
    ensures text { OnOk result (out.new.items ≡ out.old.items ++ reply_line Done) }
    ensures err { OnErr result ((store.new ≡ store.old) × (out.new.items ≡ out.old.items)) }
{
    out.reserve(3)?;
    ssz_versions::compact(&mut store.versions, &mut store.arena)?;
    say_done(out);
    Ok(())
}
