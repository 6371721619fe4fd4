use ssz_arena::NodeId;
use ssz_bytes::Fault;
use ssz_schema::TypeId;
use ssz_script::{FileName, Identifier, Reply};
use ssz_value_json::JsonFault;
use ssz_versions::Room;

/// What a statement comes to.
#[derive(Drop)]
pub enum Decision<'a> {
    /// It is refused with this code.
    Refused(u8),
    /// Its bytes have a first fault.
    BadBytes(Fault),
    /// Its JSON text has a first fault.
    BadJson(JsonFault),
    /// It changes nothing.
    Said(Reply),
    /// A name that is free gets a version, for which there is memory.
    Made(&'a Identifier, TypeId, NodeId, Room),
    /// A version gets another node.
    Edited(&'a Identifier, NodeId),
    /// A name is given up.
    Dropped(&'a Identifier),
    /// A file gets these bytes.
    Saved(&'a FileName, Vec<u8>),
}
