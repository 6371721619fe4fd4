//! The commands and their arguments, as `clap` is told of them.
ghost use Rattle.std.specs.Prelude.{◌≡◌, IfOk, false, map, pos};
ghost use Rattle.std.specs.List.{list_any};
ghost use Rattle.clap.specs.Words.{App, Shape, app_of, rule_of, with_subcommand};
ghost use Rattle.ssz_words.specs.CommandSet.{IsLocal, max_bytes_option, number, positional};
ghost use Rattle.ssz_words.specs.CommandSet.{bare_program, clash_command, command_with, part_command};
ghost use Rattle.ssz_words.specs.CommandSet.{partial_command};
ghost use Rattle.ssz_words.specs.CommandSet.{positionals, program, root_command, run_command};
ghost use Rattle.ssz_words.specs.CommandSet.{verify_command, weave_command, work_command};

use clap::builder::ValueParser;
use clap::{Arg, Command, value_parser};
use std::alloc::{AllocError, Global};

fn positional<'a>(alloc: Global, id: &'a str) -> Arg<'a>
    ensures rule { rule_of result ≡ positional id.entry.now }
    ensures local { result.global ≡ false }
{
    Arg::new(alloc, id).required(true)
}

fn positionals<'a>(alloc: Global, id: &'a str) -> Arg<'a>
    ensures rule { rule_of result ≡ positionals id.entry.now }
    ensures local { result.global ≡ false }
{
    positional(alloc, id).num_args(1..)
}

fn number<'a>(alloc: Global, id: &'a str, parser: ValueParser<'a>) -> Arg<'a>
    ensures rule { rule_of result ≡ number id.entry.now parser.entry }
    ensures local { result.global ≡ false }
{
    positional(alloc, id).value_parser(parser)
}

fn max_bytes_option<'a>(alloc: Global) -> Arg<'a>
    ensures rule { rule_of result ≡ max_bytes_option }
    ensures local { result.global ≡ false }
{
    Arg::new(alloc, "max-bytes")
        .long("max-bytes")
        .value_parser(value_parser!(u32))
        .default_value("268435456")
}

// The command of this name with these arguments.
fn command_with<'a>(
    alloc: Global,
    name: &'a str,
    arguments: Vec<Arg<'a>>,
) -> Result<Command<'a>, AllocError>
    requires local { list_any (λ argument. argument.global) arguments.items ≡ false }
    ensures { IfOk result
        (IsLocal (command_with name.entry.now (map rule_of arguments.entry.items))) }
{
    Command::new(alloc, name).args(arguments)
}

fn root_command<'a>(alloc: Global) -> Result<Command<'a>, AllocError>
    ensures { IfOk result (IsLocal root_command) }
{
    let arguments = vec![in alloc;
        positional(alloc, "schema"),
        positional(alloc, "type"),
        positional(alloc, "file"),
        max_bytes_option(alloc),
    ]?;
    command_with(alloc, "root", arguments)
}

fn run_command<'a>(alloc: Global) -> Result<Command<'a>, AllocError>
    ensures { IfOk result (IsLocal run_command) }
{
    let arguments = vec![in alloc;
        positional(alloc, "schema"),
        positional(alloc, "script"),
        max_bytes_option(alloc),
    ]?;
    command_with(alloc, "run", arguments)
}

fn weave_command<'a>(alloc: Global) -> Result<Command<'a>, AllocError>
    ensures { IfOk result (IsLocal weave_command) }
{
    let arguments = vec![in alloc;
        positional(alloc, "schema"),
        positional(alloc, "base"),
        positional(alloc, "order"),
        positionals(alloc, "scripts"),
        max_bytes_option(alloc),
    ]?;
    command_with(alloc, "weave", arguments)
}

fn verify_command<'a>(alloc: Global) -> Result<Command<'a>, AllocError>
    ensures { IfOk result (IsLocal verify_command) }
{
    let arguments = vec![in alloc; positional(alloc, "root"), positional(alloc, "file")]?;
    command_with(alloc, "verify", arguments)
}

fn work_command<'a>(alloc: Global) -> Result<Command<'a>, AllocError>
    ensures { IfOk result (IsLocal work_command) }
{
    let edits = value_parser!(u32).range(0..=1_000_000);
    let arguments = vec![in alloc;
        positional(alloc, "schema"),
        positional(alloc, "type"),
        number(alloc, "seed", value_parser!(u64)),
        number(alloc, "edits", edits),
    ]?;
    command_with(alloc, "work", arguments)
}

fn part_command<'a>(alloc: Global) -> Result<Command<'a>, AllocError>
    ensures { IfOk result (IsLocal part_command) }
{
    let arguments = vec![in alloc;
        positional(alloc, "schema"),
        positional(alloc, "type"),
        positional(alloc, "file"),
        positional(alloc, "path"),
        max_bytes_option(alloc),
    ]?;
    command_with(alloc, "part", arguments)
}

fn partial_command<'a>(alloc: Global) -> Result<Command<'a>, AllocError>
    ensures { IfOk result (IsLocal partial_command) }
{
    let arguments = vec![in alloc;
        positional(alloc, "schema"),
        positional(alloc, "type"),
        positional(alloc, "proof"),
        positional(alloc, "script"),
    ]?;
    command_with(alloc, "partial", arguments)
}

fn clash_command<'a>(alloc: Global) -> Result<Command<'a>, AllocError>
    ensures { IfOk result (IsLocal clash_command) }
{
    let arguments = vec![in alloc; positional(alloc, "first"), positional(alloc, "second")]?;
    command_with(alloc, "clash", arguments)
}

// The program before it has commands.
fn bare_program<'a>(alloc: Global) -> Command<'a>
    ensures { app_of result ≡ bare_program }
{
    Command::new(alloc, "ssz")
        .subcommand_required(true)
        .disable_help_flag(true)
        .disable_help_subcommand(true)
}

// The program with one command more, where there was memory for both.
fn with_command<'a>(
    program: Result<Command<'a>, AllocError>,
    command: Result<Command<'a>, AllocError>,
) -> Result<Command<'a>, AllocError>
    ensures { (app : App) → (shape : Shape) → IfOk program.entry (λ p. app_of p ≡ app)
        → IfOk command.entry (IsLocal shape)
        → IfOk result (λ r. app_of r ≡ with_subcommand app shape) }
{
    program?.subcommand(command?)
}

/// The program with its commands.
pub(crate) fn program<'a>(alloc: Global) -> Result<Command<'a>, AllocError>
    ensures { IfOk result (λ c. app_of c ≡ program) }
{
    let program = with_command(Ok(bare_program(alloc)), root_command(alloc));
    let program = with_command(program, run_command(alloc));
    let program = with_command(program, weave_command(alloc));
    let program = with_command(program, verify_command(alloc));
    let program = with_command(program, work_command(alloc));
    let program = with_command(program, part_command(alloc));
    let program = with_command(program, partial_command(alloc));
    with_command(program, clash_command(alloc))
}
