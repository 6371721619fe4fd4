ghost use Rattle.std.specs.Prelude.{◌<◌, ◌∷◌, [], length, IfOk, IfErr};
ghost use Rattle.ssz_schema.specs.declared.path.PathStep.TheVariants.{Field};
ghost use Rattle.ssz_arena.specs.Content.{IsNodeOf};
ghost use Rattle.ssz_walk.specs.Found.{IsFound, IsLost};

use super::place::{Place, Spot};
use ssz_arena::{Arena, NodeId};
use ssz_chunk::PairHash;
use ssz_gindex::Gindex;
use ssz_schema::{Schema, TypeId};
use ssz_value::PathFault;

/// The place of the field of this name, from the node of a value of the type: what `find` answers
/// for the path of this one step, whose name is here only lent. `BadPath` exactly where the type is
/// no container or has no such field; `Absent` is answered for no value of the type.
pub fn find_field<H: PairHash>(
    arena: &Arena<H>,
    schema: &Schema,
    id: TypeId,
    node: NodeId,
    name: &[u8],
) -> Result<Place, PathFault>
    requires known { id < length schema.now.trees }
    requires node { IsNodeOf arena.now node }
    ensures found { IfOk result (IsFound schema.now arena.now id node (Field name.now ∷ [])) }
    ensures lost { IfErr result (IsLost schema.now arena.now id node (Field name.now ∷ [])) }
{
    // By the type it is known that the tree of a value has its parts.
    let _legal = schema.ty(id);
    let Some(lead) = schema.field_lead(id, name) else {
        return Err(PathFault::BadPath);
    };
    let Some(index) = Gindex::new((1 << schema.depth(id)) + u128::from(lead.number)) else {
        return Err(PathFault::Absent);
    };
    match arena.down(node, index) {
        Some(found) => Ok(Place {
            id: lead.part,
            node: found,
            index,
            spot: Spot::Whole,
        }),
        None => Err(PathFault::Absent),
    }
}
