// From the words and the files to what is left to do.
ghost use Rattle.std.specs.Prelude.{Some};
ghost use Rattle.std.specs.Option.{option_and_then};
ghost use Rattle.ssz_words.specs.Limits.{CommandIsWithinLimits};
ghost use Rattle.ssz_tool.specs.Commands.{plan_of, plan_of_command, root, texts};
ghost use Rattle.ssz_tool.specs.Follows.{Follows, FollowsWords};
ghost use Rattle.ssz_tool.specs.Tasks.{IsTask};

use crate::clashes::task_of_clash;
use crate::files::{load, load_schema};
use crate::line::Line;
use crate::partials::task_of_partial;
use crate::parts::task_of_part;
use crate::scripts::task_of_run;
use crate::stop::Stop;
use crate::verifying::task_of_verify;
use crate::weaving::{Weaving, task_of_weave};
use crate::working::{Work, task_of_work};
use ssz_checking::check;
use ssz_chunk::Chunk;
use ssz_line::{LineFault, read_path};
use ssz_outside::Files;
use ssz_partial::Partial;
use ssz_proof::Proof;
use ssz_schema::{Schema, TypeId};
use ssz_words::{Command, RootArgs, WordsFault, read_words};
use std::alloc::Global;

/// What is left to do once the files are read.
#[derive(Drop)]
pub enum Task {
    /// A line to print, after which the program ends as accepted.
    Text(String),
    /// The root of the value of a type that these bytes encode.
    Root(Schema, TypeId, Vec<u8>),
    /// Whether a proof leads to this root.
    Verify(Chunk, Proof),
    /// What two proofs come to.
    Clash(Proof, Proof),
    /// The run of a script over these types, with the most bytes of a value.
    Script(Schema, u32, Vec<u8>),
    /// The weave of scripts.
    Weave(Weaving),
    /// The work on a version of a type.
    Work(Work),
    /// The run of a script over a tree of which a proof knows some nodes, of a type of the schema.
    Partial(Schema, Partial, Vec<u8>),
}

/// The task of `root SCHEMA TYPE FILE`.
pub fn task_of_root<F: Files>(alloc: Global, files: &mut F, args: &RootArgs) -> Result<Task, Stop>
    requires usable { F.usable files.old }
    ensures { Follows F.Files IsTask (root args.now) result files.old files.new }
{
    let schema = load_schema(alloc, files, args.schema.as_str())?;
    let Some(id) = schema.find(args.type_name.as_str()) else {
        return Err(Stop::Says(Line::NoType));
    };
    let max = args.max_bytes as u64;
    let bytes = load(alloc, files, args.file.as_str(), max, Line::TooLong)?;
    match check(&schema, id, &bytes) {
        Some(fault) => Err(Stop::Says(Line::Invalid(fault))),
        None => Ok(Task::Root(schema, id, bytes)),
    }
}

fn task_of_command<F: Files>(alloc: Global, files: &mut F, command: Command) -> Result<Task, Stop>
    requires within { CommandIsWithinLimits command }
    requires usable { F.usable files.old }
    ensures { FollowsWords F.Files IsTask (plan_of_command command) result files.old files.new }
{
    match command {
        Command::Root(args) => task_of_root(alloc, files, &args),
        Command::Verify(args) => task_of_verify(alloc, files, &args),
        Command::Run(args) => task_of_run(alloc, files, &args),
        Command::Weave(args) => task_of_weave(alloc, files, &args),
        Command::Work(args) => task_of_work(alloc, files, &args),
        Command::Part(args) => match read_path(alloc, args.path.as_str().as_bytes()) {
            Ok(path) => task_of_part(alloc, files, &args, &path),
            Err(LineFault::Syntax) => Err(Stop::Usage),
            Err(LineFault::Memory) => Err(Stop::Memory),
        },
        Command::Clash(args) => task_of_clash(alloc, files, &args),
        Command::Partial(args) => task_of_partial(alloc, files, &args),
    }
}

/// The task of these words.
pub fn task_of<F: Files>(alloc: Global, files: &mut F, words: &[String]) -> Result<Task, Stop>
    requires usable { F.usable files.old }
    ensures { FollowsWords F.Files IsTask (plan_of (texts words.now)) result files.old files.new }
{
    match read_words(alloc, words) {
        Ok(command) => task_of_command(alloc, files, command),
        Err(WordsFault::NotTaken) => Err(Stop::Usage),
        Err(WordsFault::Memory) => Err(Stop::Memory),
    }
}
