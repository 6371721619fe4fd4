use ssz_arena::NodeId;
use ssz_gindex::Gindex;
use ssz_schema::TypeId;

/// Where a part lies in its node: it is the whole node, or it begins at this byte or is this bit of
/// a leaf.
#[derive(Clone, Copy, Debug, PartialEq, Eq)]
pub enum Spot {
    Whole,
    Byte(u8),
    Bit(u8),
}

/// Where a part is: its type, the node at its index, and where in the node.
#[derive(Debug, Drop)]
pub struct Place {
    pub id: TypeId,
    pub node: NodeId,
    pub index: Gindex,
    pub spot: Spot,
}
