//! Codes of refusals, and what an edit comes to.
ghost use Rattle.std.specs.Prelude.{◌≡◌};
ghost use Rattle.ssz_machine.specs.Rules.{edit_code};
ghost use Rattle.ssz_decisions.specs.Finished.{FinishesEdit};
ghost use Rattle.ssz_decisions.specs.Shown.{path_code};

use super::decision::Decision;
use ssz_arena::NodeId;
use ssz_script::{Identifier, Reply};
use ssz_value::{EditFault, PathFault};
use std::alloc::AllocError;

/// The code of a path that leads to no part.
pub(crate) fn code_of_path(fault: PathFault) -> u8
    ensures { result ≡ path_code fault }
{
    match fault {
        PathFault::BadPath => Reply::BAD_PATH,
        PathFault::Absent => Reply::ABSENT,
    }
}

/// The code of an edit's fault, 0 of want of memory.
pub fn code_of_edit(fault: EditFault) -> u8
    ensures { result ≡ edit_code fault }
{
    match fault {
        EditFault::BadPath => Reply::BAD_PATH,
        EditFault::Absent => Reply::ABSENT,
        EditFault::NotThat => Reply::NOT_THAT,
        EditFault::Full => Reply::FULL,
        EditFault::Empty => Reply::EMPTY,
        EditFault::BadSelector => Reply::BAD_SELECTOR,
        EditFault::Memory => 0,
    }
}

/// What an edit of a version's node comes to. Fails for want of memory.
pub fn finish<'a>(
    v: &'a Identifier,
    edited: Result<NodeId, EditFault>,
) -> Result<Decision<'a>, AllocError>
    ensures { FinishesEdit v.now edited result }
{
    match edited {
        Ok(node) => Ok(Decision::Edited(v, node)),
        Err(EditFault::Memory) => Err(AllocError),
        Err(fault) => Ok(Decision::Refused(code_of_edit(fault))),
    }
}
