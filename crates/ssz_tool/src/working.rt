// From the words of `work` and the schema to the work.
ghost use Rattle.std.specs.Prelude.{◌≡◌, ◌≢◌, ◌≤◌, ◌+◌, Bool};
ghost use Rattle.std.specs.Option.{ForSome};
ghost use Rattle.ssz_outside.specs.Job.{Ends, CountsRun};
ghost use Rattle.ssz_tool.specs.Commands.{work};
ghost use Rattle.ssz_tool.specs.Follows.{Follows};
ghost use Rattle.ssz_tool.specs.Runs.{JobDoes, RisesWhere, job_of_task, least_of_task, pairs_of_task, turns_of_task};
ghost use Rattle.ssz_tool.specs.Tasks.{IsTask, work_view};

use crate::files::load_schema;
use crate::job::Task;
use crate::line::Line;
use crate::stop::Stop;
use ssz_chunk::PairHash;
use ssz_engine::Engine;
use ssz_line::{Identifier, LineFault, read_name};
use ssz_outside::{Files, Sink, Status};
use ssz_schema::Schema;
use ssz_words::WorkArgs;
use std::alloc::Global;

/// The work on a version of the type of this name.
#[derive(Drop)]
pub struct Work {
    pub schema: Schema,
    pub type_name: Identifier,
    /// The number that the edits are drawn from.
    pub seed: u64,
    pub edits: u32,
}

/// The task of `work SCHEMA TYPE SEED EDITS`. The type of the word has to be a name.
pub fn task_of_work<F: Files>(alloc: Global, files: &mut F, args: &WorkArgs) -> Result<Task, Stop>
    requires usable { F.usable files.old }
    ensures { Follows F.Files IsTask (work args.now) result files.old files.new }
{
    let schema = load_schema(alloc, files, args.schema.as_str())?;
    let type_name = match read_name(alloc, args.type_name.as_str().as_bytes()) {
        Ok(name) => name,
        Err(LineFault::Syntax) => return Err(Stop::Says(Line::NoType)),
        Err(LineFault::Memory) => return Err(Stop::Memory),
    };
    match schema.find_name(type_name.as_name()) {
        Some(_) => Ok(Task::Work(Work {
            schema,
            type_name,
            seed: args.seed,
            edits: args.edits,
        })),
        None => Err(Stop::Says(Line::NoType)),
    }
}

/// Does the work over an engine of its own.
pub fn run_work<F: Files, S: Sink, H: PairHash>(
    alloc: Global,
    work: Work,
    files: &mut F,
    out: &mut S,
    hasher: &mut H,
) -> Status
    requires files_usable { F.usable files.old }
    requires sink_usable { S.usable out.old }
    ensures ends { (reads : Bool) → ForSome (F.content files.old) (λ held.
        JobDoes (λ numbers. job_of_task H.pair_of numbers held reads (work_view work))
        (λ numbers. turns_of_task H.pair_of numbers held (work_view work)) result
        (H.pairs hasher.old) (H.pairs hasher.new)
        (λ job. Ends (S.ample out.old) result job (S.pieces out.old) (S.pieces out.new)
        (F.content files.new))) }
    ensures counts { CountsRun result (F.get_faults files.old) (F.get_faults files.new)
        (F.put_faults files.old) (F.put_faults files.new) (S.faults out.old) (S.faults out.new) }
    ensures usage { result ≢ Status.Usage }
    ensures read { result ≢ Status.ReadFault }
    ensures asks { F.asked files.new ≡ F.asked files.old }
    ensures pairs { ForSome (F.content files.old) (λ held. H.pairs hasher.new ≤ H.pairs hasher.old
        + pairs_of_task H.pair_of held (work_view work)) }
    ensures least { ForSome (F.content files.old) (λ held. result ≢ Status.Memory
        → RisesWhere (least_of_task H.pair_of held (work_view work)) (H.pairs hasher.old)
        (H.pairs hasher.new)) }
{
    let Work {
        schema,
        type_name,
        seed,
        edits,
    } = work;
    // No encoding is read or printed.
    match Engine::start(alloc, schema, 0, hasher) {
        Ok(mut engine) => engine.work(&type_name, seed, edits, files, out, hasher),
        Err(_) => Status::Memory,
    }
}
