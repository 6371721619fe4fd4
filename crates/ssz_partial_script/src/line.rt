// The lines of a script, one by one.
ghost use Rattle.std.specs.Prelude.{IfOk};
ghost use Rattle.ssz_script.specs.Grammar.{partial_statements};
ghost use Rattle.ssz_script.specs.Lines.{lines_said};
ghost use Rattle.ssz_partial_script.specs.Runs.{IsNextPartialLine};

use ssz_line::LineFault;
use ssz_script::{Lines, PartialStatement, read_partial};
use std::alloc::{AllocError, Global};

/// A line of a script that is neither blank nor a comment.
#[derive(Debug, Drop)]
pub struct PartialLine {
    /// The number of the line, from 1 on; all lines are counted.
    pub number: u64,
    /// The statement, or None exactly where the line is not of the grammar.
    pub statement: Option<PartialStatement>,
}

/// Takes the first line that is neither blank nor a comment, with those before it; None where there
/// is none.
pub fn next_line(alloc: Global, lines: &mut Lines<'_>) -> Result<Option<PartialLine>, AllocError>
    ensures { IfOk result (λ next. IsNextPartialLine next (lines_said partial_statements lines.old)
        (lines_said partial_statements lines.new)) }
{
    while let Some(line) = lines.next() {
        let statement = match read_partial(alloc, line.text) {
            Ok(None) => continue,
            Ok(Some(statement)) => Some(statement),
            Err(LineFault::Syntax) => None,
            Err(LineFault::Memory) => return Err(AllocError),
        };
        return Ok(Some(PartialLine {
            number: line.number,
            statement,
        }));
    }
    Ok(None)
}
