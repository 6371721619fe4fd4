ghost use Rattle.std.specs.Prelude.{◌≡◌, ◌∷◌, [], IfOk, OnErr};
ghost use Rattle.ssz_script.specs.Grammar.{statements};
ghost use Rattle.ssz_script.specs.Lines.{lines_said};
ghost use Rattle.ssz_script.specs.Next.{IsNext};

use super::read::read_line;
use super::statement::Statement;
use ssz_line::{LineFault, Lines};
use std::alloc::{AllocError, Global};
use std::marker::Model;

/// A line of a script that is neither blank nor a comment.
#[derive(Debug, Drop)]
pub struct ScriptStatement {
    /// The number of the line, from 1 on; all lines are counted.
    pub line: u64,
    /// The statement, or None exactly where the line is not of the grammar.
    pub statement: Option<Statement>,
}

// What the next line that says something says.
#[tactic(auto, using(crate::proofs::Comments::comments_passed))]
fn next_statement(
    alloc: Global,
    lines: &mut Lines<'_>,
) -> Result<Option<ScriptStatement>, AllocError>
    ensures { IfOk result
        (λ next. IsNext next (lines_said statements lines.old) (lines_said statements lines.new)) }
{
    while let Some(line) = lines.next() {
        match read_line(alloc, line.text) {
            // Comments come in runs.
            Ok(None) => lines.skip_comments(),
            Ok(Some(statement)) => {
                return Ok(Some(ScriptStatement {
                    line: line.number,
                    statement: Some(statement),
                }));
            }
            Err(LineFault::Syntax) => {
                return Ok(Some(ScriptStatement {
                    line: line.number,
                    statement: None,
                }));
            }
            Err(LineFault::Memory) => return Err(AllocError),
        }
    }
    Ok(None)
}

/// The statements of a script that are still to be read, seen as the list of their lines' numbers
/// and what they are. The script is not copied.
#[derive(Debug, Drop)]
pub struct Statements<'a> {
    lines: Lines<'a>,
}

impl<'a> Model for Statements<'a> {
    ghost use Rattle.std.specs.Prelude.{List, ℕ, Option};
    ghost use Rattle.ssz_script.specs.declared.statement.Statement.{Statement};
    ghost use Rattle.ssz_script.specs.Grammar.{statements};
    ghost use Rattle.ssz_script.specs.Lines.{lines_said};

    ghost Value = { List (ℕ × Option Statement) };

    ghost view = { λ a. lines_said statements a.lines };
}

impl<'a> Statements<'a> {
    ghost use Rattle.ssz_script.specs.Lines.{statements_in};

    /// The statements of this script.
    pub fn new(script: &'a [u8]) -> Self
        ensures { result ≡ statements_in script.now }
    {
        Statements {
            lines: Lines::new(script),
        }
    }

    /// Takes the first statement, or None where there are no more. Want of memory takes none.
    pub fn next(&mut self, alloc: Global) -> Result<Option<ScriptStatement>, AllocError>
        ensures ok { IfOk result (λ next. IsNext next self.old self.new) }
        ensures err { OnErr result (self.new ≡ self.old) }
    {
        let mut lines = self.lines.same();
        let next = next_statement(alloc, &mut lines)?;
        self.lines = lines;
        Ok(next)
    }
}
