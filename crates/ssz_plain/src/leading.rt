// Where a step leads in a value of a type.
ghost use Rattle.std.specs.Prelude.{◌≡◌, ◌<◌, None, length, IfSome, IfNone, IsSome};
ghost use Rattle.ssz_schema.specs.Types.{SszType};
ghost use Rattle.ssz_schema.specs.Unfolding.{type_of};
ghost use Rattle.ssz_schema.specs.Paths.{step_type};
ghost use Rattle.ssz_schema.specs.Steps.{lead_number};
ghost use Rattle.ssz_value.specs.Parts.{numbered};
ghost use Rattle.ssz_plain.specs.Leading.{IsLead, step_to};

use ssz_schema::{PathStep, Schema, TypeId};

// Where a part lies in a value: a field by its number, as an element.
#[derive(Clone, Copy, Debug)]
pub(crate) enum Place {
    // The field, element or bit of this number.
    Item(u64),
    // The length of a list or bitlist.
    Length,
    // The selector of a union.
    Selector,
    // The value of the option of this number.
    Inner(u8),
}

// A part that a step leads to: its type, and where it lies.
#[derive(Clone, Copy, Debug)]
pub(crate) struct Lead {
    pub(crate) id: TypeId,
    pub(crate) place: Place,
}

// Where the step leads, or None exactly where it does not fit the type.
pub(crate) fn step_lead(schema: &Schema, id: TypeId, step: &PathStep) -> Option<Lead>
    requires { id < length schema.now.trees }
    ensures led { IfSome result (IsLead schema.now id step.now) }
    ensures unfit { IfNone result (step_type (type_of schema.now id) step.now ≡ None) }
{
    let lead = schema.lead(id, step)?;
    Some(Lead {
        id: lead.part,
        place: place_of(step, lead.number),
    })
}

// Where the part lies that the step leads to, where a field has this number.
#[tactic(auto, using(crate::proofs::Steps::steps_placed))]
fn place_of(step: &PathStep, number: u64) -> Place
    ensures { (t : SszType) → number ≡ lead_number step.now t → IsSome (step_type t step.now)
        → numbered t step.now ≡ step_to result }
{
    match step {
        PathStep::Field(_) => Place::Item(number),
        PathStep::Index(i) => Place::Item(*i),
        PathStep::Len => Place::Length,
        PathStep::Selector => Place::Selector,
        PathStep::Option(selector) => Place::Inner(*selector),
    }
}
