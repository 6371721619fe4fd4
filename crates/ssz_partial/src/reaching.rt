// The way from the root of a partial tree to a part.
ghost use Rattle.std.specs.Prelude.{◌≡◌, ◌+◌, ◌*◌, ◌<◌, ◌≤◌, ◌^◌, length, Some, IsSome, IfOk};
ghost use Rattle.ssz_schema.specs.Types.{SszType};
ghost use Rattle.ssz_schema.specs.Sizes.{type_levels};
ghost use Rattle.ssz_schema.specs.Unfolding.{type_of};
ghost use Rattle.ssz_schema.specs.Paths.{path_type, step_type};
ghost use Rattle.ssz_schema.specs.Indices.{whole};
ghost use Rattle.ssz_proof.specs.Multiproof.{known_of};
ghost use Rattle.ssz_partial.specs.Partial.{step_fault, known_length_fault, selector_fault, found_from};
ghost use Rattle.ssz_proof.specs.Calculation.{chunk_at};
ghost use Rattle.ssz_partial.specs.Reached.{reached_as};
ghost use Rattle.ssz_walk.specs.Found.{spot_of};
ghost use Rattle.ssz_partial.specs.Spots.{SpotSuits};

use super::chunks::{is_above, is_number};
use super::fault::PartialFault;
use super::types::step_spot;
use ssz_chunk::Chunk;
use ssz_gindex::Gindex;
use ssz_proof::Proof;
use ssz_schema::{PathStep, Schema, Ty, TypeId};
use ssz_walk::Spot;

/// Where a part lies: the node in whose chunk it is, and where there.
#[derive(Drop)]
pub struct Reached {
    pub index: Gindex,
    pub spot: Spot,
    pub chunk: Chunk,
}

/// The part at the path, which fits the type, or the first of its needed nodes that is not known
/// or tells that it is absent.
pub fn reach(
    proof: &Proof,
    schema: &Schema,
    id: TypeId,
    path: &[PathStep],
) -> Result<Reached, PartialFault>
    requires known { id < length schema.now.trees }
    requires fits { IsSome (path_type (type_of schema.now id) path.now) }
    ensures found { reached_as result
        ≡ found_from (known_of proof.now) 1 whole (type_of schema.now id) path.now }
    ensures suits { IfOk result (λ found. (u : SszType)
        → path_type (type_of schema.now id) path.now ≡ Some u → SpotSuits u (spot_of found.spot)) }
{
    // A legal type has at most 126 levels, so that each index fits.
    let _legal = schema.ty(id);
    let mut index = Gindex::root();
    let mut part = id;
    let mut spot = Spot::Whole;
    for step in path {
        let Some(lead) = schema.lead(part, step) else {
            return Err(PartialFault::BadPath);
        };
        if let Some(fault) = step_fault(proof, schema, part, index, step) {
            return Err(fault);
        }
        spot = step_spot(schema, part, step);
        index = index.placed(schema, part, step, lead.number);
        part = lead.part;
    }
    match proof.chunk(index) {
        Some(chunk) => Ok(Reached { index, spot, chunk }),
        None => Err(PartialFault::Blind(index)),
    }
}

// What is refused of a step from the value at the index.
fn step_fault(
    proof: &Proof,
    schema: &Schema,
    id: TypeId,
    index: Gindex,
    step: &PathStep,
) -> Option<PartialFault>
    requires known { id < length schema.now.trees }
    requires fits { IsSome (step_type (type_of schema.now id) step.now) }
    requires room { (index + 1) * 2 ^ type_levels (type_of schema.now id) ≤ 2 ^ 127 }
    ensures { result ≡ step_fault (known_of proof.now) index (type_of schema.now id) step.now }
{
    match (schema.ty(id), step) {
        (Ty::List(_, _), PathStep::Index(i)) => length_fault(proof, index.right(), *i),
        (Ty::Bitlist(_), PathStep::Index(i)) => length_fault(proof, index.right(), *i),
        (Ty::Union(_), PathStep::Option(k)) => selector_fault(proof, index.right(), *k),
        _ => None,
    }
}

fn length_fault(proof: &Proof, index: Gindex, i: u64) -> Option<PartialFault>
    ensures { result ≡ known_length_fault (chunk_at (known_of proof.now) index) index i }
{
    match proof.chunk(index) {
        None => Some(PartialFault::Blind(index)),
        Some(chunk) => {
            if is_above(&chunk, i) {
                None
            } else {
                Some(PartialFault::Absent)
            }
        }
    }
}

fn selector_fault(proof: &Proof, index: Gindex, selector: u8) -> Option<PartialFault>
    ensures { result ≡ selector_fault (chunk_at (known_of proof.now) index) index selector }
{
    match proof.chunk(index) {
        None => Some(PartialFault::Blind(index)),
        Some(chunk) => {
            if is_number(&chunk, selector) {
                None
            } else {
                Some(PartialFault::Absent)
            }
        }
    }
}
