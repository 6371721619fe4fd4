// Edits a list of a value on nodes, with a root after each edit:
// SCHEMA TYPE FILE LIST|- FIELD|- LENGTH EDITS set|append|pop.
ghost use Rattle.std.specs.Prelude.{◌≡◌, ◌<◌, length, Ok, IfOk};
ghost use Rattle.ssz_arena.specs.Content.{IsNodeOf};

use super::nodes::node_of;
use super::numbers::{element_at, value_at};
use anyhow::{Result, bail};
use bench_values::inputs::{Sample, large_number, number, read_sample};
use bench_values::paths::{aim, push_element, push_field};
use ssz_arena::{Arena, NodeId};
use ssz_chunk::{Chunk, PairHash, ShaPair};
use ssz_edit::{append, pop, set};
use ssz_schema::PathStep;
use ssz_value::EditFault;
use std::alloc::{AllocError, Global};

const USAGE: &str = "usage: bench edit SCHEMA TYPE FILE LIST|- FIELD|- LENGTH EDITS set|append|pop";

// From an element to the next one: an odd number that leads all over the list.
const FAR: u64 = 2_654_435_761;

// What is done to the list again and again.
#[derive(Clone, Copy, PartialEq, Eq)]
enum Edit {
    Set,
    Append,
    Pop,
}

// The edits of a list.
#[derive(Drop)]
struct Job {
    path: Vec<PathStep>,
    // Where in the path the number of the element stands.
    place: Option<usize>,
    // The length of the list.
    count: u64,
    times: u32,
    edit: Edit,
    ghost some: { 0 < count },
}

// What was made in the end, and how many nodes there were and how many pairs were hashed before the
// edits and after them.
#[derive(Clone, Copy)]
struct Outcome {
    root: Chunk,
    nodes: usize,
    made: usize,
    pairs: u64,
    hashed: u64,
}

// Lets the path go on to the field that the word names; `-` names none.
fn push_word(path: &mut Vec<PathStep>, word: &str) -> Result<(), AllocError> {
    if word == "-" {
        return Ok(());
    }
    push_field(path, word)
}

// The path to the list, or to its first element or a field of that.
fn path_of(
    alloc: Global,
    list: &str,
    field: &str,
    edit: Edit,
) -> Result<Vec<PathStep>, AllocError> {
    let mut path = Vec::new(alloc);
    push_word(&mut path, list)?;
    if edit == Edit::Set {
        push_element(&mut path)?;
        push_word(&mut path, field)?;
    }
    Ok(path)
}

// Its node, where there was no fault.
fn made(answer: std::result::Result<NodeId, EditFault>) -> Result<NodeId>
    ensures { IfOk result (λ node. answer ≡ Ok node) }
{
    match answer {
        Ok(node) => Ok(node),
        Err(fault) => bail!("{fault:?}"),
    }
}

// The node of the value in which the part at the path is this number.
fn with_number<H: PairHash>(
    alloc: Global,
    arena: &mut Arena<H>,
    sample: &Sample,
    node: NodeId,
    path: &[PathStep],
    number: u64,
) -> Result<NodeId>
    requires { IsNodeOf arena.old node }
    ensures { IfOk result (IsNodeOf arena.new) }
{
    let value = value_at(alloc, &sample.schema, sample.id, path, number)?;
    let answer = set(arena, &sample.schema, sample.id, node, path, &value);
    drop(value);
    made(answer)
}

// The node of the value in which the list at the path has this number behind its elements.
fn with_element<H: PairHash>(
    alloc: Global,
    arena: &mut Arena<H>,
    sample: &Sample,
    node: NodeId,
    path: &[PathStep],
    number: u64,
) -> Result<NodeId>
    requires { IsNodeOf arena.old node }
    ensures { IfOk result (IsNodeOf arena.new) }
{
    let value = element_at(alloc, &sample.schema, sample.id, path, number)?;
    let answer = append(arena, &sample.schema, sample.id, node, path, &value);
    drop(value);
    made(answer)
}

// The node of the edited value.
fn edited<H: PairHash>(
    alloc: Global,
    arena: &mut Arena<H>,
    sample: &Sample,
    node: NodeId,
    job: &Job,
    number: u64,
) -> Result<NodeId>
    requires { IsNodeOf arena.old node }
    ensures { IfOk result (IsNodeOf arena.new) }
{
    let path = job.path.as_slice();
    match job.edit {
        Edit::Set => with_number(alloc, arena, sample, node, path, number),
        Edit::Append => with_element(alloc, arena, sample, node, path, number),
        Edit::Pop => made(pop(arena, &sample.schema, sample.id, node, path)),
    }
}

// Lets the path lead to the element of this edit: another one each time, all over the list.
fn aim_at(job: &mut Job, number: u64) {
    if let Some(place) = job.place {
        aim(&mut job.path, place, number.wrapping_mul(FAR) % job.count);
    }
}

// The node of the value after the edits, with the root of each value between them asked for.
fn edits<H: PairHash>(
    alloc: Global,
    arena: &mut Arena<H>,
    sample: &Sample,
    first: NodeId,
    job: &mut Job,
    hasher: &mut H,
) -> Result<NodeId>
    requires { IsNodeOf arena.old first }
    ensures { IfOk result (IsNodeOf arena.new) }
{
    let mut node = first;
    for i in 0..job.times {
        let number = u64::from(i);
        aim_at(job, number);
        node = edited(alloc, arena, sample, node, job, number)?;
        arena.root(node, hasher);
    }
    Ok(node)
}

fn edit_of(word: &str) -> Result<Edit> {
    match word {
        "set" => Ok(Edit::Set),
        "append" => Ok(Edit::Append),
        "pop" => Ok(Edit::Pop),
        _ => bail!(USAGE),
    }
}

fn job_of(alloc: Global, words: &[String]) -> Result<Job> {
    let [list, field, count, times, edit] = words else {
        bail!(USAGE);
    };
    let (count, times) = (large_number(count)?, number(times)?);
    if count == 0 {
        bail!(USAGE);
    }
    let edit = edit_of(edit)?;
    let place = (edit == Edit::Set).then_some(usize::from(list.as_str() != "-"));
    let path = path_of(alloc, list, field, edit)?;
    Ok(Job {
        path,
        place,
        count,
        times,
        edit,
    })
}

// Makes the nodes of the value, and edits them.
fn work(alloc: Global, sample: &Sample, job: &mut Job) -> Result<Outcome> {
    let mut hasher = ShaPair::new();
    let mut arena = Arena::start(alloc, &mut hasher)?;
    let first = node_of(&mut arena, sample)?;
    arena.root(first, &mut hasher);
    let (nodes, pairs) = (arena.len(), hasher.count());
    let last = edits(alloc, &mut arena, sample, first, job, &mut hasher)?;
    let root = arena.root(last, &mut hasher);
    Ok(Outcome {
        root,
        nodes,
        made: arena.len(),
        pairs,
        hashed: hasher.count(),
    })
}

// The same with the edits that the words say.
fn work_on(alloc: Global, sample: &Sample, words: &[String]) -> Result<Outcome> {
    let mut job = job_of(alloc, words)?;
    let outcome = work(alloc, sample, &mut job);
    drop(job);
    outcome
}

fn say(rt: &HostRuntime, outcome: &Outcome) -> Result<()> {
    let digits = hex::encode(rt.alloc(), &outcome.root.0)?;
    let (nodes, made) = (outcome.nodes, outcome.made);
    let (pairs, hashed) = (outcome.pairs, outcome.hashed);
    println!(rt; "{digits} {nodes} {made} {pairs} {hashed}")?;
    Ok(())
}

/// Does the work of the words, and says what came of it.
pub fn run(rt: &HostRuntime, words: &[String]) -> Result<()> {
    let [schema, name, file, edits @ ..] = words else {
        bail!(USAGE);
    };
    let sample = read_sample(rt, schema, name, file)?;
    let outcome = work_on(rt.alloc(), &sample, edits);
    drop(sample);
    say(rt, &outcome?)
}
