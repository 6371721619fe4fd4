//! What the words of a command line ask for.
ghost use Rattle.std.specs.Prelude.{◌≡◌, ◌≢◌, IfOk, Option, codes, map, string_bytes};
ghost use Rattle.clap.specs.Words.{Text, first_of, subcommand_rows_of};
ghost use Rattle.ssz_words.specs.Limits.{CommandIsWithinLimits};
ghost use Rattle.ssz_words.specs.Reading.{ReadsWords};
ghost use Rattle.ssz_words.specs.Values.{rows_in};
ghost use Rattle.ssz_words.specs.Words.{after_schema_and_type, clash_args, command_of, found_in};
ghost use Rattle.ssz_words.specs.Words.{named_args, part_args};
ghost use Rattle.ssz_words.specs.Words.{partial_args, root_args, run_args, verify_args};
ghost use Rattle.ssz_words.specs.Words.{weave_args, work_args};

use crate::command_set::program;
use crate::commands::{
    ClashArgs, Command, PartArgs, PartialArgs, RootArgs, RunArgs, VerifyArgs, WeaveArgs, WorkArgs,
};
use crate::faults::WordsFault;
use crate::names::{FileName, TypeName};
use crate::values::{
    file_at, file_names, number_at, path_at, read_order, read_root, seed_at, type_at, word_at,
    words_at,
};
use clap::ArgMatches;
use clap::error::ErrorKind;
use std::alloc::Global;

// How many scripts a weave may have.
const MOST_SCRIPTS: usize = 10;

/// The command that the words of a command line ask for. The first word is the program's name.
///
/// `NotTaken` comes exactly where the words ask for no command, a request for help among them, and
/// `Memory` only where memory ran out.
pub fn read_words(alloc: Global, words: &[String]) -> Result<Command, WordsFault>
    ensures exact { ReadsWords result (command_of (map string_bytes words.now)) }
    ensures limits { IfOk result CommandIsWithinLimits }
{
    let matches = matches_of(alloc, words)?;
    match matches.subcommand() {
        Some((name, found)) => named_command(alloc, name, found),
        None => Err(WordsFault::NotTaken),
    }
}

// What `clap` finds in the words, if it takes them.
fn matches_of<'a>(alloc: Global, words: &'a [String]) -> Result<ArgMatches<'a>, WordsFault>
    ensures taken { IfOk result (λ m.
        found_in (map string_bytes words.entry.now) ≡ subcommand_rows_of m) }
    ensures refused { result ≡ Err WordsFault.NotTaken
        → found_in (map string_bytes words.entry.now) ≡ None }
{
    match program(alloc)?.try_get_matches_from(words) {
        Ok(matches) => Ok(matches),
        Err(error) => Err(fault_for(error.kind())),
    }
}

// Words that `clap` refuses are not taken, a request for help among them.
fn fault_for(kind: ErrorKind) -> WordsFault
    ensures { result ≡ WordsFault.NotTaken → kind ≢ ErrorKind.OutOfMemory }
{
    if kind == ErrorKind::OutOfMemory {
        WordsFault::Memory
    } else {
        WordsFault::NotTaken
    }
}

fn named_command(alloc: Global, name: &str, found: &ArgMatches<'_>) -> Result<Command, WordsFault>
    ensures { ReadsWords result (named_args name.now (rows_in found.now)) }
{
    match name {
        "root" => root_command(alloc, found),
        "run" => run_command(alloc, found),
        "weave" => weave_command(alloc, found),
        "verify" => verify_command(alloc, found),
        "work" => work_command(alloc, found),
        "part" => part_command(alloc, found),
        "partial" => partial_command(alloc, found),
        "clash" => clash_command(alloc, found),
        _ => Err(WordsFault::NotTaken),
    }
}

// The file of the schema and the name of the type, with which the words of some commands begin.
fn schema_and_type(
    alloc: Global,
    found: &ArgMatches<'_>,
) -> Result<(FileName, TypeName), WordsFault>
    ensures found { let rows = rows_in found.now in IfOk result (λ p.
        (first_of (codes "schema") rows ≡ Some p.0) × (first_of (codes "type") rows ≡ Some p.1)) }
    ensures missing { (rest : Text → Text → Option Command) → result ≡ Err WordsFault.NotTaken
        → after_schema_and_type rest (rows_in found.now) ≡ None }
{
    let schema = file_at(alloc, found, "schema")?;
    Ok((schema, type_at(alloc, found, "type")?))
}

fn root_command(alloc: Global, found: &ArgMatches<'_>) -> Result<Command, WordsFault>
    ensures { ReadsWords result (root_args (rows_in found.now)) }
{
    let (schema, type_name) = schema_and_type(alloc, found)?;
    Ok(Command::Root(RootArgs {
        schema,
        type_name,
        file: file_at(alloc, found, "file")?,
        max_bytes: number_at(found, "max-bytes")?,
    }))
}

fn run_command(alloc: Global, found: &ArgMatches<'_>) -> Result<Command, WordsFault>
    ensures { ReadsWords result (run_args (rows_in found.now)) }
{
    Ok(Command::Run(RunArgs {
        schema: file_at(alloc, found, "schema")?,
        script: file_at(alloc, found, "script")?,
        max_bytes: number_at(found, "max-bytes")?,
    }))
}

fn weave_command(alloc: Global, found: &ArgMatches<'_>) -> Result<Command, WordsFault>
    ensures { ReadsWords result (weave_args (rows_in found.now)) }
{
    let schema = file_at(alloc, found, "schema")?;
    let base = file_at(alloc, found, "base")?;
    let digits = word_at(found, "order")?;
    let scripts = words_at(found, "scripts")?;
    let max_bytes = number_at(found, "max-bytes")?;
    let order = read_order(alloc, digits, scripts.len())?;
    if scripts.len() > MOST_SCRIPTS {
        return Err(WordsFault::NotTaken);
    }
    Ok(Command::Weave(WeaveArgs {
        schema,
        base,
        order,
        scripts: file_names(alloc, scripts)?,
        max_bytes,
    }))
}

fn verify_command(alloc: Global, found: &ArgMatches<'_>) -> Result<Command, WordsFault>
    ensures { ReadsWords result (verify_args (rows_in found.now)) }
{
    let digits = word_at(found, "root")?;
    let file = file_at(alloc, found, "file")?;
    let root = read_root(digits).ok_or(WordsFault::NotTaken)?;
    Ok(Command::Verify(VerifyArgs { root, file }))
}

fn work_command(alloc: Global, found: &ArgMatches<'_>) -> Result<Command, WordsFault>
    ensures { ReadsWords result (work_args (rows_in found.now)) }
{
    let (schema, type_name) = schema_and_type(alloc, found)?;
    Ok(Command::Work(WorkArgs {
        schema,
        type_name,
        seed: seed_at(found, "seed")?,
        edits: number_at(found, "edits")?,
    }))
}

fn part_command(alloc: Global, found: &ArgMatches<'_>) -> Result<Command, WordsFault>
    ensures { ReadsWords result (part_args (rows_in found.now)) }
{
    let (schema, type_name) = schema_and_type(alloc, found)?;
    Ok(Command::Part(PartArgs {
        schema,
        type_name,
        file: file_at(alloc, found, "file")?,
        path: path_at(alloc, found, "path")?,
        max_bytes: number_at(found, "max-bytes")?,
    }))
}

fn partial_command(alloc: Global, found: &ArgMatches<'_>) -> Result<Command, WordsFault>
    ensures { ReadsWords result (partial_args (rows_in found.now)) }
{
    let (schema, type_name) = schema_and_type(alloc, found)?;
    Ok(Command::Partial(PartialArgs {
        schema,
        type_name,
        proof: file_at(alloc, found, "proof")?,
        script: file_at(alloc, found, "script")?,
    }))
}

fn clash_command(alloc: Global, found: &ArgMatches<'_>) -> Result<Command, WordsFault>
    ensures { ReadsWords result (clash_args (rows_in found.now)) }
{
    Ok(Command::Clash(ClashArgs {
        first: file_at(alloc, found, "first")?,
        second: file_at(alloc, found, "second")?,
    }))
}
