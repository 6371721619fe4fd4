//! `len`.
ghost use Rattle.std.specs.Prelude.{◌≡◌, IfOk, IfErr};
ghost use Rattle.ssz_machine.specs.Asking.{len};
ghost use Rattle.ssz_machine.specs.Changes.{nothing};
ghost use Rattle.ssz_views.specs.Looking.{ForPart, type_seen};
ghost use Rattle.ssz_decisions.specs.Counted.{HasCount, HasNoCount};
ghost use Rattle.ssz_decisions.specs.Decisions.{AnswersOf};

use super::decision::Decision;
use super::refusals::code_of_path;
use super::store::Store;
use super::ways::way_from;
use ssz_chunk::PairHash;
use ssz_line::Steps;
use ssz_schema::PathStep;
use ssz_script::{Identifier, Reply};
use ssz_versions::Writer;
use ssz_views::View;
use std::alloc::AllocError;

// How many elements or bits the part at the path has; else the code of the refusal.
fn count_at<'a, H: PairHash>(view: &View<'a, H>, path: &[PathStep]) -> Result<u64, u8>
    ensures ok { IfOk result (λ n. ForPart view.now
        (HasCount (type_seen view.now) path.now n)) }
    ensures err { IfErr result (λ code. ForPart view.now
        (HasNoCount (type_seen view.now) path.now code)) }
{
    match view.at(path) {
        Err(fault) => Err(code_of_path(fault)),
        Ok(part) => match part.len() {
            Some(count) => Ok(count),
            None => Err(Reply::NOT_THAT),
        },
    }
}

/// `len V P`. Fails for want of memory.
pub fn len<'a, H: PairHash>(
    store: &Store<H>,
    writer: Writer,
    v: &Identifier,
    path: &Steps,
) -> Result<Decision<'a>, AllocError>
    ensures { IfOk result (AnswersOf H.pair_of
        (λ rules versions. len versions v.now path.now) nothing writer.0 store.now) }
{
    let way = match way_from(store, writer, v, path)? {
        Ok(way) => way,
        Err(code) => return Ok(Decision::Refused(code)),
    };
    let steps = way.steps.as_slice();
    let view = View::new(&store.arena, &store.schema, way.id, way.node);
    match count_at(&view, steps) {
        Ok(count) => Ok(Decision::Said(Reply::Len(count))),
        Err(code) => Ok(Decision::Refused(code)),
    }
}
