// From the words of `partial` and the files to what is left to do.
ghost use Rattle.ssz_tool.specs.Commands.{partial};
ghost use Rattle.ssz_tool.specs.Follows.{Follows};
ghost use Rattle.ssz_tool.specs.Tasks.{IsTask};

use crate::files::{load_proof, load_schema, load_script};
use crate::job::Task;
use crate::line::Line;
use crate::stop::Stop;
use ssz_outside::Files;
use ssz_partial::Partial;
use ssz_words::PartialArgs;
use std::alloc::Global;

/// The task of `partial SCHEMA TYPE PROOF SCRIPT`.
pub fn task_of_partial<F: Files>(
    alloc: Global,
    files: &mut F,
    args: &PartialArgs,
) -> Result<Task, Stop>
    requires usable { F.usable files.old }
    ensures { Follows F.Files IsTask (partial args.now) result files.old files.new }
{
    let schema = load_schema(alloc, files, args.schema.as_str())?;
    let Some(id) = schema.find(args.type_name.as_str()) else {
        return Err(Stop::Says(Line::NoType));
    };
    let proof = load_proof(alloc, files, args.proof.as_str(), &Line::BadProof)?;
    let script = load_script(alloc, files, args.script.as_str())?;
    let tree = Partial::from_proof(alloc, id, &proof)?;
    Ok(Task::Partial(schema, tree, script))
}
