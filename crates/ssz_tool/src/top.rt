// The top call.
ghost use Rattle.std.specs.Prelude.{◌≡◌, ◌≢◌, ◌≤◌, ◌+◌, ℕ, List, Bool, true, Some, IsNone, IsSome, sum_by, length};
ghost use Rattle.std.specs.List.{AllByRecursion};
ghost use Rattle.std.specs.Option.{ForSome};
ghost use Rattle.ssz_chunk.specs.Index.{levels};
ghost use Rattle.ssz_outside.specs.Asked.{AsksOf, is_cut};
ghost use Rattle.ssz_outside.specs.Content.{Content};
ghost use Rattle.ssz_outside.specs.Outcome.{Rose};
ghost use Rattle.ssz_outside.specs.Job.{Ends, Finishes, CountsRun, IsThatOrStopped, line_job};
ghost use Rattle.ssz_proof.specs.Calculation.{indices_of};
ghost use Rattle.ssz_schema.specs.Unfolding.{type_of};
ghost use Rattle.ssz_tool.specs.Commands.{plan_of, texts};
ghost use Rattle.ssz_tool.specs.Lines.{line_status};
ghost use Rattle.ssz_tool.specs.Plans.{AreReadable};
ghost use Rattle.ssz_tool.specs.Runs.{JobDoes, RisesWhere, run_job_of, job_of_line, job_of_task, job_once_read, least_asked, least_of_task, pairs_allowed, pairs_of_task, asked_by, asks_of_task, files_reached_by, reached_first, reached_of_task, run_turns, turns_of_task};
ghost use Rattle.ssz_tool.specs.Tasks.{IsFaultless, IsTaskReady, task_view};
ghost use Rattle.ssz_tool.specs.ToDo.{is_script, line_of_proof, line_of_value};
ghost use Rattle.ssz_value.specs.Faults.{first_fault};
ghost use Rattle.ssz_value.specs.Pairs.{pairs};
ghost use Rattle.ssz_value.specs.Reading.{value_in};

use crate::job::{Task, task_of};
use crate::line::{Line, line_text, status_of};
use crate::scripts::run_script;
use crate::stop::Stop;
use crate::weaving::run_weave;
use crate::working::run_work;
use ssz_chunk::{Chunk, PairHash, ZeroTable};
use ssz_clash::clash;
use ssz_outside::{Files, Sink, Status, say_line};
use ssz_partial_script::run_partial;
use ssz_proof::{Proof, calc};
use ssz_roots::root_of_bytes;
use ssz_schema::{Schema, TypeId};
use std::alloc::Global;

const USAGE: &str = "usage: ssz root SCHEMA TYPE FILE | run SCHEMA SCRIPT \
    | weave SCHEMA BASE ORDER SCRIPT.. | verify ROOT FILE | work SCHEMA TYPE SEED EDITS \
    | part SCHEMA TYPE FILE PATH | partial SCHEMA TYPE PROOF SCRIPT | clash FILE FILE\n";

fn line_of_proof<H: PairHash>(root: &Chunk, proof: &Proof, hasher: &mut H) -> Line
    ensures value { result ≡ line_of_proof H.pair_of root.now.0 proof.now }
    ensures pairs { H.pairs hasher.new
        ≤ H.pairs hasher.old + sum_by levels (indices_of proof.now.leaves) }
{
    let made = calc(proof, hasher);
    if made == *root {
        Line::Valid
    } else {
        Line::Unlike(made)
    }
}

fn line_of_value<H: PairHash>(schema: &Schema, id: TypeId, bytes: &[u8], hasher: &mut H) -> Line
    requires { IsFaultless (length schema.now.trees) id
        (first_fault (type_of schema.now id) 0 bytes.now)
        (length bytes.now) }
    ensures value { result ≡ line_of_value H.pair_of (type_of schema.now id) bytes.now }
    ensures pairs { H.pairs hasher.new ≤ H.pairs hasher.old
        + (126 + pairs (type_of schema.now id) (value_in (type_of schema.now id) bytes.now)) }
{
    let zeros = ZeroTable::new(hasher);
    Line::Root(root_of_bytes(schema, id, bytes, &zeros, hasher))
}

fn print_line<S: Sink>(alloc: Global, line: &Line, out: &mut S) -> Status
    requires usable { S.usable out.old }
    ensures ends { (held : Content) (reads : Bool) → Ends (S.ample out.old) result
        (job_of_line held reads line.now) (S.pieces out.old) (S.pieces out.new) (Some held) }
    ensures counts { (gets puts : ℕ) → CountsRun result gets gets puts puts
        (S.faults out.old) (S.faults out.new) }
    ensures status { IsThatOrStopped (line_status line.now) result }
    ensures usage { result ≢ Status.Usage }
    ensures read { result ≢ Status.ReadFault }
{
    let Ok(text) = line_text(alloc, line) else {
        return Status::Memory;
    };
    let ended = say_line(text.as_str(), status_of(line), out);
    drop(text);
    ended
}

/// Does what is left to do once the files of the words are read.
fn do_task<F: Files, S: Sink, H: PairHash>(
    alloc: Global,
    task: Task,
    files: &mut F,
    out: &mut S,
    hasher: &mut H,
) -> Status
    requires ready { IsTaskReady task }
    requires files_usable { F.usable files.old }
    requires sink_usable { S.usable out.old }
    ensures ends { (reads : Bool) → ForSome (F.content files.old) (λ held.
        JobDoes (λ numbers. job_of_task H.pair_of numbers held reads (task_view task))
        (λ numbers. turns_of_task H.pair_of numbers held (task_view task)) result
        (H.pairs hasher.old) (H.pairs hasher.new)
        (λ job. Ends (S.ample out.old) result job (S.pieces out.old) (S.pieces out.new)
        (F.content files.new))) }
    ensures counts { CountsRun result (F.get_faults files.old) (F.get_faults files.new)
        (F.put_faults files.old) (F.put_faults files.new) (S.faults out.old) (S.faults out.new) }
    ensures usage { result ≢ Status.Usage }
    ensures readable { (is_script (task_view task) ≡ true
        → (name : List ℕ) → F.readable files.old name) → result ≢ Status.ReadFault }
    ensures asks { ForSome (F.content files.old) (λ held. AsksOf (is_cut result)
        (asks_of_task H.pair_of held (task_view task)) (F.asked files.old)
        (F.asked files.new)) }
    ensures reached { ForSome (F.content files.old) (λ held. AllByRecursion (F.readable files.old)
        (reached_of_task H.pair_of held (task_view task)) → result ≢ Status.ReadFault) }
    ensures pairs { ForSome (F.content files.old) (λ held. H.pairs hasher.new
        ≤ H.pairs hasher.old + pairs_of_task H.pair_of held (task_view task)) }
    ensures least { ForSome (F.content files.old) (λ held. result ≢ Status.Memory
        → RisesWhere (least_of_task H.pair_of held (task_view task)) (H.pairs hasher.old)
        (H.pairs hasher.new)) }
{
    match task {
        Task::Text(text) => say_line(text.as_str(), Status::Accepted, out),
        Task::Root(schema, id, bytes) => {
            let line = line_of_value(&schema, id, &bytes, hasher);
            print_line(alloc, &line, out)
        }
        Task::Verify(root, proof) => {
            let line = line_of_proof(&root, &proof, hasher);
            print_line(alloc, &line, out)
        }
        Task::Clash(one, other) => {
            let line = Line::Compared(clash(&one, &other, hasher));
            print_line(alloc, &line, out)
        }
        Task::Script(schema, max, script) => {
            run_script(alloc, schema, max, script.as_slice(), files, out, hasher)
        }
        Task::Weave(weaving) => run_weave(alloc, weaving, files, out, hasher),
        Task::Work(work) => run_work(alloc, work, files, out, hasher),
        Task::Partial(schema, mut partial, script) => {
            run_partial(alloc, &schema, &mut partial, script.as_slice(), out, hasher)
        }
    }
}

/// The program, over its words, files, a sink and a hasher.
pub fn run<F: Files, S: Sink, H: PairHash>(
    alloc: Global,
    words: &[String],
    files: &mut F,
    out: &mut S,
    hasher: &mut H,
) -> Status
    // After a call of the files or of the sink that failed or ran out of memory no other is made:
    // they are then not known to be usable.
    requires files_usable { F.usable files.old }
    requires sink_usable { S.usable out.old }
    // Where the files tell what they hold, no fault is counted and memory is not wanting, the job
    // of the words is done: its text is printed, the files are those after it, its status is
    // answered; the numbers that `hashes` prints are counts of the pairs that were hashed.
    ensures main_theorem { ForSome (F.content files.old) (λ held.
        ¬ Rose (F.get_faults files.old) (F.get_faults files.new)
        → ¬ Rose (F.put_faults files.old) (F.put_faults files.new)
        → ¬ Rose (S.faults out.old) (S.faults out.new)
        → result ≢ Status.Memory
        → JobDoes (run_job_of H.pair_of (texts words.now) held)
        (run_turns H.pair_of (texts words.now) held)
        result (H.pairs hasher.old) (H.pairs hasher.new)
        (λ job. Finishes job result (S.pieces out.old) (S.pieces out.new)
        (F.content files.new))) }

    // Whatever ended the run, what is left is of that job.
    ensures ends { ForSome (F.content files.old) (λ held.
        JobDoes (run_job_of H.pair_of (texts words.now) held)
        (run_turns H.pair_of (texts words.now) held)
        result (H.pairs hasher.old) (H.pairs hasher.new)
        (λ job. Ends (S.ample out.old) result job (S.pieces out.old) (S.pieces out.new)
        (F.content files.new))) }

    // Where the files of the words can be read, a read fails only at a step that reads: the lines
    // before it are printed, and the files are those after them. Where it is told that reads fail
    // of absent names alone, it is the first step whose file is absent as the files then stand.
    ensures in_turn { ForSome (F.content files.old) (λ held.
        AllByRecursion (F.readable files.old) (reached_first held (texts words.now))
        → JobDoes (job_once_read H.pair_of (texts words.now) held)
        (run_turns H.pair_of (texts words.now) held) result
        (H.pairs hasher.old) (H.pairs hasher.new)
        (λ job. Ends (S.ample out.old) result job (S.pieces out.old) (S.pieces out.new)
        (F.content files.new))) }

    // The fault that the status names was counted, and no other: none is passed over.
    ensures counts { CountsRun result (F.get_faults files.old) (F.get_faults files.new)
        (F.put_faults files.old) (F.put_faults files.new) (S.faults out.old) (S.faults out.new) }

    // Words that are not taken are refused as such, and no others; no file is read for them.
    ensures usage { result ≡ Status.Usage → IsNone (plan_of (texts words.now)) }
    ensures not_taken { IsNone (plan_of (texts words.now)) → IsThatOrStopped Status.Usage result }
    ensures taken { result ≡ Status.ReadFault → IsSome (plan_of (texts words.now)) }

    // A read fails only of the files that the job reaches: no other is read. Where it is not told
    // what the files hold, only of those that the words, or the statements of a script, may name.
    ensures reached { ForSome (F.content files.old) (λ held. AllByRecursion (F.readable files.old)
        (files_reached_by H.pair_of held (texts words.now)) → result ≢ Status.ReadFault) }
    ensures readable { ForSome (plan_of (texts words.now)) (λ plan.
        AreReadable (F.readable files.old) plan → result ≢ Status.ReadFault) }

    // The files are asked for exactly the files of the words that it reaches, each once, in this
    // order and with its limit, and then for those that its statements read, as they come, each
    // with the most bytes of a value; of a run that was cut short, for the first so many.
    ensures asked { ForSome (F.content files.old) (λ held. AsksOf (is_cut result)
        (asked_by H.pair_of held (texts words.now)) (F.asked files.old) (F.asked files.new)) }

    // The pairs hashed: of a value its own, of scripts and of a work those of the values that they
    // bring in and the levels of the paths that they edit, beyond the zero table; of a proof as
    // many as its leaves have levels, for each root that is taken of it.
    ensures pairs { ForSome (F.content files.old) (λ held. H.pairs hasher.new
        ≤ H.pairs hasher.old + pairs_allowed H.pair_of (texts words.now) held) }

    // And no fewer: of a work one for each edit of something below the top, since such an edit
    // makes the pair at the top anew, and its root is made before the next edit.
    ensures least { ForSome (F.content files.old) (λ held. result ≢ Status.Memory
        → result ≢ Status.ReadFault
        → RisesWhere (least_asked H.pair_of (texts words.now) held) (H.pairs hasher.old)
        (H.pairs hasher.new)) }
{
    match task_of(alloc, files, words) {
        Ok(task) => do_task(alloc, task, files, out, hasher),
        Err(Stop::Usage) => say_line(USAGE, Status::Usage, out),
        Err(Stop::Says(line)) => print_line(alloc, &line, out),
        Err(Stop::Read) => Status::ReadFault,
        Err(Stop::Memory) => Status::Memory,
    }
}
