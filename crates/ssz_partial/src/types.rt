// What a path tells by the type alone.
ghost use Rattle.std.specs.Prelude.{◌≡◌, ◌<◌, length};
ghost use Rattle.ssz_schema.specs.Unfolding.{type_of};
ghost use Rattle.ssz_schema.specs.declared.path.PathStep.TheVariants.{Index};
ghost use Rattle.ssz_schema.specs.Indices.{step_spot};
ghost use Rattle.ssz_places.specs.EditLaws.{is_mixed_in};
ghost use Rattle.ssz_partial.specs.Partial.{ends_mixed_in};
ghost use Rattle.ssz_walk.specs.Found.{spot_of};

use ssz_schema::{PathStep, Schema, Ty, TypeId};
use ssz_walk::Spot;

/// Whether the path ends with a length or a selector.
pub fn ends_mixed_in(path: &[PathStep]) -> bool
    ensures { result ≡ ends_mixed_in path.now }
{
    let mut ends = false;
    for step in path {
        ends = is_mixed_in(step);
    }
    ends
}

fn is_mixed_in(step: &PathStep) -> bool
    ensures { result ≡ is_mixed_in step.now }
{
    match step {
        PathStep::Len | PathStep::Selector => true,
        PathStep::Field(_) | PathStep::Index(_) | PathStep::Option(_) => false,
    }
}

/// Where in the chunk of its node the part lies to which the step leads.
pub fn step_spot(schema: &Schema, id: TypeId, step: &PathStep) -> Spot
    requires { id < length schema.now.trees }
    ensures { spot_of result ≡ step_spot (type_of schema.now id) step.now }
{
    match step {
        PathStep::Index(i) => index_spot(schema, id, *i),
        _ => Spot::Whole,
    }
}

fn index_spot(schema: &Schema, id: TypeId, i: u64) -> Spot
    requires { id < length schema.now.trees }
    ensures { spot_of result ≡ step_spot (type_of schema.now id) (Index i) }
{
    match schema.ty(id) {
        Ty::Vector(elem, _) | Ty::List(elem, _) => match schema.basic_size(*elem) {
            Some(size) => Spot::Byte((i % 32 * size % 32) as u8),
            None => Spot::Whole,
        },
        Ty::Bitvector(_) | Ty::Bitlist(_) => Spot::Bit((i % 256) as u8),
        Ty::Uint(_) | Ty::Boolean | Ty::Container(_) | Ty::Union(_) => Spot::Whole,
    }
}
