ghost use Rattle.std.specs.Prelude.{◌≡◌, IfOk, OnErr};
ghost use Rattle.ssz_arena.specs.Content.{node_count};
ghost use Rattle.ssz_machine.specs.Making.{upgrade};
ghost use Rattle.ssz_machine.specs.Changes.{puts};
ghost use Rattle.ssz_script.specs.declared.statement.Statement.TheVariants.{Upgrade};
ghost use Rattle.ssz_decisions.specs.Content.{Grows};
ghost use Rattle.ssz_decisions.specs.Decisions.{AnswersWith};
ghost use Rattle.ssz_engine.specs.Steps.{MakesUpgrade};

use ssz_chunk::PairHash;
use ssz_decisions::{Decision, Store};
use ssz_forms::UpgradeFault;
use ssz_script::{Identifier, Reply};
use ssz_versions::{Room, Writer};
use std::alloc::AllocError;

/// `upgrade V W T`. Fails for want of memory.
pub(crate) fn upgrade<'a, H: PairHash>(
    store: &mut Store<H>,
    writer: Writer,
    v: &Identifier,
    w: &'a Identifier,
    t: &Identifier,
) -> Result<Decision<'a>, AllocError>
    ensures grows { Grows store.old store.new }
    ensures answers { IfOk result (AnswersWith H.pair_of
        (λ rules versions. upgrade rules versions v.now w.now t.now) (puts w.now) writer.0
        store.old store.new) }
    ensures upgrades { IfOk result (MakesUpgrade (Upgrade v.now w.now t.now) writer.0
        store.old store.new) }
    ensures whole { OnErr result (node_count store.new.arena ≡ node_count store.old.arena) }
{
    let Some(id) = store.schema.find_name(t.as_name()) else {
        return Ok(Decision::Refused(Reply::NO_TYPE));
    };
    let Some(held) = store.versions.get(writer, v.as_name()) else {
        return Ok(Decision::Refused(Reply::NO_VERSION));
    };
    if store.versions.get(writer, w.as_name()).is_some() {
        return Ok(Decision::Refused(Reply::NAME_TAKEN));
    }
    let room = Room::new(store.alloc)?;
    let made = ssz_upgrade::upgrade(&mut store.arena, &store.schema, held.0, held.1, id);
    let node = match made {
        Ok(node) => node,
        Err(fault) => match fault {
            UpgradeFault::NotContainer => return Ok(Decision::Refused(Reply::NOT_CONTAINER)),
            UpgradeFault::Memory => return Err(AllocError),
        },
    };
    Ok(Decision::Made(w, id, node, room))
}
