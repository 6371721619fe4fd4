// The steps of a path as a list of their own.
ghost use Rattle.std.specs.Prelude.{◌≡◌, ◌<◌, List, length, Some, None, IfOk, IsSome, MatchOption};
ghost use Rattle.ssz_schema.specs.declared.path.PathStep.{PathStep};
ghost use Rattle.ssz_schema.specs.Paths.{path_type};
ghost use Rattle.ssz_schema.specs.Unfolding.{type_of};

use super::steps_left::StepsLeft;
use ssz_schema::{Name, PathStep, Schema, TypeId};
use std::alloc::{AllocError, Global};

/// The steps that are left, where they fit the type; None exactly where they do not.
pub(crate) fn fitting_of(
    alloc: Global,
    schema: &Schema,
    id: TypeId,
    mut left: StepsLeft<'_>,
) -> Result<Option<Vec<PathStep>>, AllocError>
    requires { id < length schema.now.trees }
    ensures { IfOk result (λ made. MatchOption made
        (path_type (type_of schema.now id) left.entry ≡ None)
        (λ steps. (steps.items ≡ left.entry)
        × IsSome (path_type (type_of schema.now id) left.entry))) }
{
    let mut steps = Vec::new(alloc);
    let mut part = id;
    while let Some(step) = left.next(alloc)? {
        match schema.step_type(part, &step) {
            Some(next) => part = next,
            None => return Ok(None),
        }
        steps.push(step)?;
    }
    Ok(Some(steps))
}

/// The steps that are left.
pub(crate) fn all_of(alloc: Global, mut left: StepsLeft<'_>) -> Result<Vec<PathStep>, AllocError>
    ensures { IfOk result (λ steps. steps.items ≡ left.entry) }
{
    let mut steps = Vec::new(alloc);
    while let Some(step) = left.next(alloc)? {
        steps.push(step)?;
    }
    Ok(steps)
}

// A step of its own that is the same.
fn copy_of(alloc: Global, step: &PathStep) -> Result<PathStep, AllocError>
    ensures { IfOk result (λ copy. copy ≡ step.now) }
{
    match step {
        PathStep::Field(name) => Ok(PathStep::Field(Name::copy_of(alloc, name.as_bytes())?)),
        PathStep::Index(element) => Ok(PathStep::Index(*element)),
        PathStep::Len => Ok(PathStep::Len),
        PathStep::Selector => Ok(PathStep::Selector),
        PathStep::Option(number) => Ok(PathStep::Option(*number)),
    }
}

/// Steps of their own that are the same.
pub(crate) fn copies_of(alloc: Global, steps: &[PathStep]) -> Result<Vec<PathStep>, AllocError>
    ensures { IfOk result (λ copies. copies.items ≡ steps.now) }
{
    let mut copies = Vec::with_capacity(alloc, steps.len())?;
    for step in steps {
        copies.push(copy_of(alloc, step)?)?;
    }
    Ok(copies)
}
