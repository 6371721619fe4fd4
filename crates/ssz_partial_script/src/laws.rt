ghost use Rattle.ssz_partial_script.specs.Laws.{PartialLinesAreLines, ScriptsTellValues};

/// Of every value whose tree has the chunks that are known first: each `get` of a script prints the
/// encoding of the value's part as it then is, each `set` that is accepted sets the part to the
/// value that its literal encodes, each `root` prints the value's root as it then is, and what is
/// refused as Absent is absent.
pub fn scripts_tell_values()
    ensures { ScriptsTellValues }
{}

/// Each line that is printed ends with a line feed and has no other.
pub fn printed_lines_are_lines()
    ensures { PartialLinesAreLines }
{}
