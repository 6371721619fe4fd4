// From two proof files to what is left to do.
ghost use Rattle.ssz_tool.specs.Commands.{clash};
ghost use Rattle.ssz_tool.specs.Follows.{Follows};
ghost use Rattle.ssz_tool.specs.Tasks.{IsTask};

use crate::files::load_proof;
use crate::job::Task;
use crate::line::Line;
use crate::stop::Stop;
use ssz_outside::Files;
use ssz_words::ClashArgs;
use std::alloc::Global;

/// The task of `clash FILE FILE`. The second file is read where the first is a proof.
pub fn task_of_clash<F: Files>(alloc: Global, files: &mut F, args: &ClashArgs) -> Result<Task, Stop>
    requires usable { F.usable files.old }
    ensures { Follows F.Files IsTask (clash args.now) result files.old files.new }
{
    let one = load_proof(alloc, files, args.first.as_str(), &Line::FirstBadProof)?;
    let other = load_proof(alloc, files, args.second.as_str(), &Line::SecondBadProof)?;
    Ok(Task::Clash(one, other))
}
