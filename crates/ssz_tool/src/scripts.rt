// From the files of a script to its run.
ghost use Rattle.std.specs.Prelude.{◌≢◌, ◌≤◌, ◌+◌, ℕ, List, Bool};
ghost use Rattle.std.specs.List.{AllByRecursion};
ghost use Rattle.std.specs.Option.{ForSome};
ghost use Rattle.ssz_outside.specs.Asked.{AsksOf, is_cut};
ghost use Rattle.ssz_outside.specs.Job.{Ends, CountsRun};
ghost use Rattle.ssz_schema.specs.Unfolding.{known_in};
ghost use Rattle.ssz_tool.specs.Commands.{run};
ghost use Rattle.ssz_tool.specs.Follows.{Follows};
ghost use Rattle.ssz_tool.specs.Runs.{JobDoes, asks_of_task, job_of_task, pairs_of_task, reached_of_task, turns_of_task};
ghost use Rattle.ssz_tool.specs.Tasks.{IsTask};
ghost use Rattle.ssz_tool.specs.ToDo.{plays};

use crate::files::{load_schema, load_script};
use crate::job::Task;
use crate::stop::Stop;
use ssz_chunk::PairHash;
use ssz_engine::Engine;
use ssz_outside::{Files, Sink, Status};
use ssz_schema::Schema;
use ssz_words::RunArgs;
use std::alloc::Global;

/// The task of `run SCHEMA SCRIPT`.
pub fn task_of_run<F: Files>(alloc: Global, files: &mut F, args: &RunArgs) -> Result<Task, Stop>
    requires usable { F.usable files.old }
    ensures { Follows F.Files IsTask (run args.now) result files.old files.new }
{
    let schema = load_schema(alloc, files, args.schema.as_str())?;
    let script = load_script(alloc, files, args.script.as_str())?;
    Ok(Task::Script(schema, args.max_bytes, script))
}

/// Runs a script over an engine of its own, as writer 0.
///
/// Seven parameters: what the files gave, and what is lent, each by its owner.
pub fn run_script<F: Files, S: Sink, H: PairHash>(
    alloc: Global,
    schema: Schema,
    max: u32,
    script: &[u8],
    files: &mut F,
    out: &mut S,
    hasher: &mut H,
) -> Status
    requires files_usable { F.usable files.old }
    requires sink_usable { S.usable out.old }
    ensures ends { (reads : Bool) → ForSome (F.content files.old) (λ held.
        JobDoes (λ numbers. job_of_task H.pair_of numbers held reads
        (plays (known_in schema) max script.now))
        (λ numbers. turns_of_task H.pair_of numbers held (plays (known_in schema) max script.now))
        result (H.pairs hasher.old) (H.pairs hasher.new)
        (λ job. Ends (S.ample out.old) result job (S.pieces out.old) (S.pieces out.new)
        (F.content files.new))) }
    ensures counts { CountsRun result (F.get_faults files.old) (F.get_faults files.new)
        (F.put_faults files.old) (F.put_faults files.new) (S.faults out.old) (S.faults out.new) }
    ensures usage { result ≢ Status.Usage }
    ensures fails { ((name : List ℕ) → F.readable files.old name) → result ≢ Status.ReadFault }
    ensures reached { ForSome (F.content files.old) (λ held. AllByRecursion (F.readable files.old)
        (reached_of_task H.pair_of held (plays (known_in schema) max script.now))
        → result ≢ Status.ReadFault) }
    ensures asks { ForSome (F.content files.old) (λ held. AsksOf (is_cut result)
        (asks_of_task H.pair_of held (plays (known_in schema) max script.now)) (F.asked files.old)
        (F.asked files.new)) }
    ensures pairs { ForSome (F.content files.old) (λ held. H.pairs hasher.new ≤ H.pairs hasher.old
        + pairs_of_task H.pair_of held (plays (known_in schema) max script.now)) }
{
    match Engine::start(alloc, schema, max, hasher) {
        Ok(mut engine) => engine.run_script(script, files, out, hasher),
        Err(_) => Status::Memory,
    }
}
