ghost use Rattle.ssz_machine.specs.Changes.{LinesLeaveOthers, RefusedDoNothing, StatementsChangeTheirEntry};
ghost use Rattle.ssz_machine.specs.Counts.{LedgersCount};
ghost use Rattle.ssz_machine.specs.Isolation.{LinesAreIsolated, WritersAreIsolated, WritersAreIsolatedSoFar};
ghost use Rattle.ssz_machine.specs.Numbers.{NumbersChangeNothing};
ghost use Rattle.ssz_machine.specs.OneLine.{AllScriptsPrintLines, PrintedLinesAreLines, ScriptsAreNamed};
ghost use Rattle.ssz_machine.specs.Proofs.{PrintedProofsLead};
ghost use Rattle.ssz_machine.specs.Sound.{ScriptsKeepValues};

/// An accepted statement changes the one entry that the table of statements names, if any, and no
/// file but that of a `save`.
pub fn statements_change_their_entry()
    ensures { StatementsChangeTheirEntry }
{}

/// A line leaves the versions of every other writer.
pub fn lines_leave_others()
    ensures { LinesLeaveOthers }
{}

/// A refused line leaves the state, and has no charge.
pub fn refused_do_nothing()
    ensures { RefusedDoNothing }
{}

/// In a weave, in whatever order, each writer of a script is told what it would be told if its own
/// lines alone were played from the base's versions.
pub fn writers_are_isolated()
    ensures { WritersAreIsolated }
{}

/// And wherever a weave breaks off, each writer was told a front of that.
pub fn writers_are_isolated_so_far()
    ensures { WritersAreIsolatedSoFar }
{}

/// Of the lines that a weave of at most 255 scripts prints, those with the mark of a script's
/// writer are the lines that this script prints where it is played alone from the base's versions;
/// wherever the weave breaks off, a front of them.
pub fn lines_are_isolated()
    ensures { LinesAreIsolated }
{}

/// The numbers that `hashes` prints change no other reply, and not the state.
pub fn numbers_change_nothing()
    ensures { NumbersChangeNothing }
{}

/// Where each type is legal, and what steps bring in are bytes, each version before each step of a
/// run is a value of a legal type, if those at first are.
pub fn scripts_keep_values()
    ensures { ScriptsKeepValues }
{}

/// From the line of an accepted `prove`, read as a proof, the hash_tree_root of the version is
/// calculated: as a file it makes `verify` print `valid` for that root.
pub fn printed_proofs_lead()
    ensures { PrintedProofsLead }
{}

/// Each line that is printed ends with a line feed and has no other, where the names of versions
/// are names.
pub fn printed_lines_are_lines()
    ensures { PrintedLinesAreLines }
{}

/// What a script calls a version is a name.
pub fn scripts_are_named()
    ensures { ScriptsAreNamed }
{}

/// Each line that scripts print, alone or woven, is one line.
pub fn all_scripts_print_lines()
    ensures { AllScriptsPrintLines }
{}

/// Where a hasher's count goes with the steps of a run, the numbers that `hashes` prints are
/// bounded by the charges, do not fall, and are exact where nothing is hashed beside them.
pub fn ledgers_count()
    ensures { LedgersCount }
{}
