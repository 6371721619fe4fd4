//! From a name and a path to a version and the steps that fit its type.
ghost use Rattle.std.specs.Prelude.{IfOk, IfErr};
ghost use Rattle.ssz_decisions.specs.Ways.{IsAstray, IsOnWay};

use super::store::Store;
use ssz_arena::NodeId;
use ssz_chunk::PairHash;
use ssz_line::Steps;
use ssz_schema::{PathStep, TypeId};
use ssz_script::{Identifier, Reply};
use ssz_versions::Writer;
use std::alloc::AllocError;

/// The type and the node of a version, and the steps of a path that fits its type.
#[derive(Drop)]
pub struct Way {
    pub id: TypeId,
    pub node: NodeId,
    pub steps: Vec<PathStep>,
}

/// The way from a version of this name; else the code of the refusal. Fails for want of memory.
pub fn way_from<H: PairHash>(
    store: &Store<H>,
    writer: Writer,
    v: &Identifier,
    path: &Steps,
) -> Result<Result<Way, u8>, AllocError>
    ensures ok { IfOk result (λ found. IfOk found (λ way.
        IsOnWay store.now writer.0 v.now path.now way.id way.node way.steps.items)) }
    ensures err { IfOk result (λ found. IfErr found
        (IsAstray store.now writer.0 v.now path.now)) }
{
    let Some((id, node)) = store.versions.get(writer, v.as_name()) else {
        return Ok(Err(Reply::NO_VERSION));
    };
    match path.fitting(store.alloc, &store.schema, id)? {
        Some(steps) => Ok(Ok(Way { id, node, steps })),
        None => Ok(Err(Reply::BAD_PATH)),
    }
}
