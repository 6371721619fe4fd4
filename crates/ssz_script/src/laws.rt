ghost use Rattle.ssz_script.specs.OneLine.{RepliesAreLines};

/// Each reply is one line: where its names are names, the text of its proof is one line and its
/// JSON has no line feed, a line feed ends the printed text, and there is no other in it.
pub fn replies_are_lines()
    ensures { RepliesAreLines }
{}
