// From the files of several scripts to their weave.
ghost use Rattle.std.specs.Prelude.{◌≢◌, ◌≤◌, ◌+◌, ℕ, List, Bool};
ghost use Rattle.std.specs.List.{AllByRecursion};
ghost use Rattle.std.specs.Option.{ForSome};
ghost use Rattle.ssz_outside.specs.Asked.{AsksOf, is_cut};
ghost use Rattle.ssz_outside.specs.Job.{Ends, CountsRun};
ghost use Rattle.ssz_words.specs.Limits.{IsWeaveOf};
ghost use Rattle.ssz_tool.specs.Commands.{weave};
ghost use Rattle.ssz_tool.specs.Follows.{Follows};
ghost use Rattle.ssz_tool.specs.Runs.{JobDoes, asks_of_task, job_of_task, pairs_of_task, reached_of_task, turns_of_task};
ghost use Rattle.ssz_tool.specs.Tasks.{IsReadyWeaving, IsTask, weaving_view};

use crate::files::{load_schema, load_script, load_scripts};
use crate::job::Task;
use crate::stop::Stop;
use ssz_bytes::ByteRun;
use ssz_chunk::PairHash;
use ssz_engine::Engine;
use ssz_outside::{Files, Sink, Status};
use ssz_schema::Schema;
use ssz_words::WeaveArgs;
use std::alloc::Global;

/// The scripts of a weave over these types, with the most bytes of a value.
#[derive(Drop)]
pub struct Weaving {
    pub schema: Schema,
    pub max: u32,
    pub base: Vec<u8>,
    /// Whose line is next, by the places of the scripts.
    pub order: Vec<u8>,
    pub scripts: Vec<ByteRun>,
}

/// The task of `weave SCHEMA BASE ORDER SCRIPT..`.
pub fn task_of_weave<F: Files>(alloc: Global, files: &mut F, args: &WeaveArgs) -> Result<Task, Stop>
    requires weave { IsWeaveOf args.now.scripts args.now.order }
    requires usable { F.usable files.old }
    ensures { Follows F.Files IsTask (weave args.now) result files.old files.new }
{
    let schema = load_schema(alloc, files, args.schema.as_str())?;
    let base = load_script(alloc, files, args.base.as_str())?;
    let scripts = load_scripts(alloc, files, args.scripts.as_slice())?;
    let order = Vec::from_slice(alloc, args.order.writers())?;
    Ok(Task::Weave(Weaving {
        schema,
        max: args.max_bytes,
        base,
        order,
        scripts,
    }))
}

/// Weaves scripts over an engine of its own.
pub fn run_weave<F: Files, S: Sink, H: PairHash>(
    alloc: Global,
    weaving: Weaving,
    files: &mut F,
    out: &mut S,
    hasher: &mut H,
) -> Status
    requires ready { IsReadyWeaving weaving }
    requires files_usable { F.usable files.old }
    requires sink_usable { S.usable out.old }
    ensures ends { (reads : Bool) → ForSome (F.content files.old) (λ held.
        JobDoes (λ numbers. job_of_task H.pair_of numbers held reads (weaving_view weaving))
        (λ numbers. turns_of_task H.pair_of numbers held (weaving_view weaving)) result
        (H.pairs hasher.old) (H.pairs hasher.new)
        (λ job. Ends (S.ample out.old) result job (S.pieces out.old) (S.pieces out.new)
        (F.content files.new))) }
    ensures counts { CountsRun result (F.get_faults files.old) (F.get_faults files.new)
        (F.put_faults files.old) (F.put_faults files.new) (S.faults out.old) (S.faults out.new) }
    ensures usage { result ≢ Status.Usage }
    ensures fails { ((name : List ℕ) → F.readable files.old name) → result ≢ Status.ReadFault }
    ensures reached { ForSome (F.content files.old) (λ held. AllByRecursion (F.readable files.old)
        (reached_of_task H.pair_of held (weaving_view weaving)) → result ≢ Status.ReadFault) }
    ensures asks { ForSome (F.content files.old) (λ held. AsksOf (is_cut result)
        (asks_of_task H.pair_of held (weaving_view weaving)) (F.asked files.old)
        (F.asked files.new)) }
    ensures pairs { ForSome (F.content files.old) (λ held. H.pairs hasher.new ≤ H.pairs hasher.old
        + pairs_of_task H.pair_of held (weaving_view weaving)) }
{
    let Weaving {
        schema,
        max,
        base,
        order,
        scripts,
    } = weaving;
    match Engine::start(alloc, schema, max, hasher) {
        Ok(mut engine) => engine.weave(&base, &order, &scripts, files, out, hasher),
        Err(_) => Status::Memory,
    }
}
