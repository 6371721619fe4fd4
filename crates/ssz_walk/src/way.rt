// Where a step leads by the type alone, found once for all that is asked of it.
ghost use Rattle.std.specs.Prelude.{◌≡◌, ◌+◌, ◌*◌, ◌/◌, ◌%◌, ◌<◌, ◌≤◌, ◌^◌, None, Some, length, IfSome, IfNone};
ghost use Rattle.ssz_schema.specs.Sizes.{basic_size};
ghost use Rattle.ssz_schema.specs.declared.path.PathStep.TheVariants.{Field, Index};
ghost use Rattle.ssz_schema.specs.Unfolding.{type_of};
ghost use Rattle.ssz_schema.specs.Paths.{step_type};
ghost use Rattle.ssz_schema.specs.Steps.{IsLead};
ghost use Rattle.ssz_schema.specs.Indices.{element_position, element_spot};
ghost use Rattle.ssz_walk.specs.declared.place.Spot.TheVariants.{Whole, Bit};
ghost use Rattle.ssz_walk.specs.Found.{spot_of};
ghost use Rattle.ssz_walk.specs.Ways.{IsWay};

use super::place::Spot;
use ssz_gindex::Gindex;
use ssz_schema::{Lead, PathStep, Schema, Ty, TypeId};

/// Where a step leads: to a part of this type, so many levels down, at this of the nodes there
/// from the left, and where in that node the part lies.
#[derive(Clone, Copy)]
pub(crate) struct Way {
    pub part: TypeId,
    pub levels: u32,
    pub position: u64,
    pub spot: Spot,
}

/// The way of a step, or None exactly where the step does not fit the type.
pub(crate) fn way_of(schema: &Schema, id: TypeId, step: &PathStep) -> Option<Way>
    requires { id < length schema.now.trees }
    ensures way { IfSome result (IsWay schema.now id step.now) }
    ensures unfit { IfNone result (step_type (type_of schema.now id) step.now ≡ None) }
{
    if let PathStep::Field(name) = step {
        return field_way(schema, id, name.as_bytes());
    }
    match schema.lead(id, step) {
        Some(lead) => Some(led_way(schema, id, step, &lead)),
        None => None,
    }
}

// The same of the step to the field of this name.
fn field_way(schema: &Schema, id: TypeId, name: &[u8]) -> Option<Way>
    requires { id < length schema.now.trees }
    ensures way { IfSome result (IsWay schema.now id (Field name.now)) }
    ensures unfit { IfNone result (step_type (type_of schema.now id) (Field name.now) ≡ None) }
{
    match schema.field_lead(id, name) {
        Some(lead) => Some(node_way(lead.part, schema.depth(id), lead.number)),
        None => None,
    }
}

// The same of a step of which the part is known.
fn led_way(schema: &Schema, id: TypeId, step: &PathStep, lead: &Lead) -> Way
    requires known { id < length schema.now.trees }
    requires lead { IsLead schema.now id step.now lead.now }
    ensures { IsWay schema.now id step.now result }
{
    match step {
        PathStep::Field(_) => node_way(lead.part, schema.depth(id), lead.number),
        PathStep::Index(i) => item_way(schema, id, *i, lead.part),
        PathStep::Len | PathStep::Selector => node_way(lead.part, 1, 1),
        PathStep::Option(_) => node_way(lead.part, 1, 0),
    }
}

// The way to a part that is a whole node.
fn node_way(part: TypeId, levels: u32, position: u64) -> Way
    ensures { result ≡ record {
      part = part;
      levels = levels;
      position = position;
      spot = Whole;
    } }
{
    Way {
        part,
        levels,
        position,
        spot: Spot::Whole,
    }
}

// The way to element or bit i, of this type.
fn item_way(schema: &Schema, id: TypeId, i: u64, part: TypeId) -> Way
    requires known { id < length schema.now.trees }
    requires part { part < length schema.now.trees }
    requires typed { step_type (type_of schema.now id) (Index i) ≡ Some (type_of schema.now part) }
    ensures { IsWay schema.now id (Index i) result }
{
    match schema.ty(id) {
        Ty::Vector(_, _) => element_way(schema, part, i, schema.depth(id)),
        Ty::List(_, _) => element_way(schema, part, i, schema.depth(id) + 1),
        Ty::Bitvector(_) => bit_way(part, i, schema.depth(id)),
        Ty::Bitlist(_) => bit_way(part, i, schema.depth(id) + 1),
        // These have no elements.
        Ty::Uint(_) | Ty::Boolean | Ty::Container(_) | Ty::Union(_) => node_way(part, 1, 0),
    }
}

// The way to element i of this type, so many levels down.
fn element_way(schema: &Schema, part: TypeId, i: u64, levels: u32) -> Way
    requires { part < length schema.now.trees }
    ensures part { result.part ≡ part }
    ensures levels { result.levels ≡ levels }
    ensures position { result.position
        ≡ element_position (basic_size (type_of schema.now part)) i }
    ensures spot { spot_of result.spot ≡ element_spot (basic_size (type_of schema.now part)) i }
{
    match schema.basic_size(part) {
        Some(size) => {
            let first = u128::from(i) * u128::from(size);
            Way {
                part,
                levels,
                position: (first / 32) as u64,
                spot: Spot::Byte((first % 32) as u8),
            }
        }
        None => node_way(part, levels, i),
    }
}

// The way to bit i, so many levels down.
fn bit_way(part: TypeId, i: u64, levels: u32) -> Way
    ensures { result ≡ record {
      part = part;
      levels = levels;
      position = i / 256;
      spot = Bit (i % 256);
    } }
{
    Way {
        part,
        levels,
        position: i / 256,
        spot: Spot::Bit((i % 256) as u8),
    }
}

impl Way {
    /// The index of the part, where this is the index of the value.
    pub(crate) fn index_below(&self, upper: Gindex) -> Gindex
        requires few { self.now.levels < 128 }
        requires room { (upper + 1) * 2 ^ self.now.levels ≤ 2 ^ 127 }
        requires place { self.now.position < 2 ^ self.now.levels }
        ensures { result ≡ upper * 2 ^ self.now.levels + self.now.position }
    {
        match Gindex::new((upper.get() << self.levels) + u128::from(self.position)) {
            Some(index) => index,
            // No index is 0.
            None => upper,
        }
    }
}
