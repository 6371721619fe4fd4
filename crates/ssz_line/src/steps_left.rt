ghost use Rattle.std.specs.Prelude.{◌≡◌, [], ◌∷◌, Some, IfOk, IsSome, MatchOption};
ghost use Rattle.ssz_line.specs.Paths.{path_step, path_parts, read_all};

use super::parts::Parts;
use super::spelled::{spelled, step_of};
use ssz_schema::PathStep;
use std::alloc::{AllocError, Global};
use std::marker::Model;

/// The steps of a text, with a slash between two, that are still to be taken.
#[derive(Drop)]
pub(crate) struct StepsLeft<'a> {
    parts: Parts<'a>,
}

impl<'a> Model for StepsLeft<'a> {
    ghost use Rattle.std.specs.Prelude.{List, [], IsSome, unwrap_or};
    ghost use Rattle.ssz_schema.specs.declared.path.PathStep.{PathStep};
    ghost use Rattle.ssz_line.specs.Paths.{path_step, read_all};

    ghost Value = { List PathStep };

    ghost view = { λ a. unwrap_or (read_all path_step a.parts) [] };

    ghost invariant = { λ a. IsSome (read_all path_step a.parts) };
}

impl<'a> StepsLeft<'a> {
    /// The steps that the text spells.
    pub(crate) fn new(text: &'a [u8]) -> Self
        requires { IsSome (read_all path_step (path_parts text.now)) }
        ensures { read_all path_step (path_parts text.now) ≡ Some result }
    {
        StepsLeft {
            parts: Parts::new(text),
        }
    }

    /// Takes the first step.
    pub(crate) fn next(&mut self, alloc: Global) -> Result<Option<PathStep>, AllocError>
        ensures { IfOk result (λ taken. MatchOption taken ((self.old ≡ []) × (self.new ≡ []))
            (λ step. self.old ≡ step ∷ self.new)) }
    {
        let Some(part) = self.parts.next() else {
            return Ok(None);
        };
        match spelled(part) {
            Some(step) => Ok(Some(step_of(alloc, step)?)),
            None => unreachable!(),
        }
    }
}
