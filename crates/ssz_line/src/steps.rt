#![tactic(auto, unfolding(crate::specs::Steps::steps_of, crate::specs::Steps::IsReadablePath))]

ghost use Rattle.std.specs.Prelude.{◌≡◌, ◌<◌, List, length, Some, None, IfOk, IsSome, MatchOption};
ghost use Rattle.ssz_schema.specs.declared.path.PathStep.{PathStep};
ghost use Rattle.ssz_schema.specs.Paths.{path_type};
ghost use Rattle.ssz_schema.specs.Indices.{generalized_index};
ghost use Rattle.ssz_schema.specs.Unfolding.{type_of};
ghost use Rattle.ssz_line.specs.Paths.{path_step, path_parts, read_all};

use super::collecting::{all_of, copies_of, fitting_of};
use super::steps_left::StepsLeft;
use ssz_gindex::Gindex;
use ssz_schema::{PathStep, Schema, TypeId};
use std::alloc::{AllocError, Global};
use std::marker::Model;

// How the steps of a path are kept.
#[derive(Debug, Drop)]
enum Form {
    // A text that spells them, with a slash between two. Of a path of many short steps this takes
    // a small part of the memory that the steps would.
    Text(Vec<u8>),
    // The steps.
    Listed(Vec<PathStep>),
}

/// A path, seen as the list of its steps.
#[derive(Debug, Drop)]
pub struct Steps {
    form: Form,
}

impl Model for Steps {
    ghost use Rattle.std.specs.Prelude.{List};
    ghost use Rattle.ssz_schema.specs.declared.path.PathStep.{PathStep};

    ghost Value = { List PathStep };

    ghost use Rattle.ssz_line.specs.Steps.{steps_of, IsReadablePath};

    ghost view = { λ a. steps_of a.form };

    ghost invariant = { λ a. IsReadablePath a.form };
}

impl Steps {
    /// The path of these steps.
    pub fn from_vec(steps: Vec<PathStep>) -> Self
        ensures { result ≡ steps.items }
    {
        Steps {
            form: Form::Listed(steps),
        }
    }

    /// The path of the steps that the text spells, with a slash between two.
    pub(crate) fn from_text(text: Vec<u8>) -> Self
        requires { IsSome (read_all path_step (path_parts text.items)) }
        ensures { read_all path_step (path_parts text.items) ≡ Some result }
    {
        Steps {
            form: Form::Text(text),
        }
    }

    /// The steps, where the path fits the type; None exactly where it does not. However long the
    /// path is, this takes memory for no more steps than types nest.
    pub fn fitting(
        &self,
        alloc: Global,
        schema: &Schema,
        id: TypeId,
    ) -> Result<Option<Vec<PathStep>>, AllocError>
        requires { id < length schema.now.trees }
        ensures { IfOk result (λ made. MatchOption made
            (path_type (type_of schema.now id) self.now ≡ None)
            (λ steps. (steps.items ≡ self.now)
            × IsSome (path_type (type_of schema.now id) self.now))) }
    {
        match &self.form {
            Form::Text(text) => fitting_of(alloc, schema, id, StepsLeft::new(text.as_slice())),
            Form::Listed(steps) => match schema.path_type(id, steps.as_slice()) {
                Some(_) => Ok(Some(copies_of(alloc, steps.as_slice())?)),
                None => Ok(None),
            },
        }
    }

    /// The generalized index of the part at the path, by the type; None exactly where the path does
    /// not fit it (merkle-proofs.md, SSZ object to index).
    pub fn gindex(
        &self,
        alloc: Global,
        schema: &Schema,
        id: TypeId,
    ) -> Result<Option<Gindex>, AllocError>
        requires { id < length schema.now.trees }
        ensures { IfOk result (λ found.
            found ≡ generalized_index (type_of schema.now id) self.now) }
    {
        match self.fitting(alloc, schema, id)? {
            Some(steps) => Ok(Gindex::of_path(schema, id, steps.as_slice())),
            None => Ok(None),
        }
    }

    /// All steps, whether they fit a type or not. This takes memory for each.
    pub fn to_vec(&self, alloc: Global) -> Result<Vec<PathStep>, AllocError>
        ensures { IfOk result (λ steps. steps.items ≡ self.now) }
    {
        match &self.form {
            Form::Text(text) => all_of(alloc, StepsLeft::new(text.as_slice())),
            Form::Listed(steps) => copies_of(alloc, steps.as_slice()),
        }
    }
}
