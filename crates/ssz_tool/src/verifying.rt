// From a proof file to what is left to do.
ghost use Rattle.ssz_tool.specs.Commands.{verify};
ghost use Rattle.ssz_tool.specs.Follows.{Follows};
ghost use Rattle.ssz_tool.specs.Tasks.{IsTask};

use crate::files::load_proof;
use crate::job::Task;
use crate::line::Line;
use crate::stop::Stop;
use ssz_chunk::Chunk;
use ssz_outside::Files;
use ssz_words::VerifyArgs;
use std::alloc::Global;

/// The task of `verify ROOT FILE`.
pub fn task_of_verify<F: Files>(
    alloc: Global,
    files: &mut F,
    args: &VerifyArgs,
) -> Result<Task, Stop>
    requires usable { F.usable files.old }
    ensures { Follows F.Files IsTask (verify args.now) result files.old files.new }
{
    let proof = load_proof(alloc, files, args.file.as_str(), &Line::BadProof)?;
    Ok(Task::Verify(Chunk(args.root), proof))
}
