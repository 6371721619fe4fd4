// The lines of several scripts, in turns and then one script after another.
ghost use Rattle.std.specs.Prelude.{◌≡◌, ◌≤◌, ◌<◌, All, drop, vec_len, OnOk};
ghost use Rattle.ssz_machine.specs.Plays.{base_writer, next_of, rest_from, woven};
ghost use Rattle.ssz_machine.specs.declared.place.Place.TheVariants.{Weave};
ghost use Rattle.ssz_engine.specs.Points.{Runs, RunsUpTo};
ghost use Rattle.ssz_engine.specs.Scripts.{scene};

use super::engine::Engine;
use super::run::run_lines;
use super::script_line::run_line;
use ssz_chunk::PairHash;
use ssz_machine::Place;
use ssz_outside::{Files, Replies, Sink, Status};
use ssz_script::Statements;
use ssz_versions::Writer;

// Does the next line of a writer, if there is one.
// Seven parameters: whose line, and what is lent, each by its owner.
fn run_next<F: Files, S: Sink, H: PairHash>(
    engine: &mut Engine<H>,
    writer: Writer,
    lines: &mut Statements<'_>,
    files: &mut F,
    out: &mut S,
    hasher: &mut H,
    replies: &mut Replies,
) -> Result<(), Status>
    requires files_usable { F.usable files.old }
    requires sink_usable { S.usable out.old }
    ensures runs { Runs H.pair_of Weave (next_of writer.0 lines.old) result replies.old.refused
        replies.new.refused
        (scene F.Files S.Sink H.PairHash engine.old files.old out.old hasher.old)
        (scene F.Files S.Sink H.PairHash engine.new files.new out.new hasher.new) }
    ensures left { OnOk result (lines.new ≡ drop 1 lines.old) }
    ensures files_usable { OnOk result (F.usable files.new) }
    ensures sink_usable { OnOk result (S.usable out.new) }
{
    match lines.next(engine.store.alloc) {
        Err(_) => Err(Status::Memory),
        Ok(None) => Ok(()),
        Ok(Some(line)) => {
            let weave = Place::Weave;
            let ran = run_line(engine, weave, writer, &line, files, out, hasher, replies);
            drop(line);
            ran
        }
    }
}

/// Does a line of each writer in this order; a writer that has none left is passed over.
///
/// Seven parameters: whose lines in which order, and what is lent, each by its owner.
pub(crate) fn run_turns<F: Files, S: Sink, H: PairHash>(
    engine: &mut Engine<H>,
    order: &[u8],
    scripts: &mut Vec<Statements<'_>>,
    files: &mut F,
    out: &mut S,
    hasher: &mut H,
    replies: &mut Replies,
) -> Result<(), Status>
    requires known { All (λ writer. writer < vec_len scripts.old) order.now }
    requires files_usable { F.usable files.old }
    requires sink_usable { S.usable out.old }
    ensures runs { RunsUpTo H.pair_of Weave (woven order.now scripts.old.items)
        (rest_from 0 scripts.new.items) result replies.old.refused replies.new.refused
        (scene F.Files S.Sink H.PairHash engine.old files.old out.old hasher.old)
        (scene F.Files S.Sink H.PairHash engine.new files.new out.new hasher.new) }
    ensures count { vec_len scripts.new ≡ vec_len scripts.old }
    ensures files_usable { OnOk result (F.usable files.new) }
    ensures sink_usable { OnOk result (S.usable out.new) }
{
    for number in order {
        let writer = Writer(*number);
        let lines = &mut scripts[usize::from(*number)];
        run_next(engine, writer, lines, files, out, hasher, replies)?;
    }
    Ok(())
}

/// Does what is left of each script, one writer after another.
pub(crate) fn run_rest<F: Files, S: Sink, H: PairHash>(
    engine: &mut Engine<H>,
    scripts: &mut Vec<Statements<'_>>,
    files: &mut F,
    out: &mut S,
    hasher: &mut H,
    replies: &mut Replies,
) -> Result<(), Status>
    requires few { vec_len scripts.old ≤ base_writer }
    requires files_usable { F.usable files.old }
    requires sink_usable { S.usable out.old }
    ensures { Runs H.pair_of Weave (rest_from 0 scripts.old.items) result replies.old.refused
        replies.new.refused
        (scene F.Files S.Sink H.PairHash engine.old files.old out.old hasher.old)
        (scene F.Files S.Sink H.PairHash engine.new files.new out.new hasher.new) }
{
    let mut number: u8 = 0;
    while usize::from(number) < scripts.len() {
        let writer = Writer(number);
        let lines = &mut scripts[usize::from(number)];
        let weave = Place::Weave;
        run_lines(engine, weave, writer, lines, files, out, hasher, replies)?;
        number += 1;
    }
    Ok(())
}
