use super::name::Name;
use super::type_id::TypeId;
use super::width::Width;

/// A type of a schema. Its parts are types of the same schema, with smaller numbers.
#[derive(Debug, Drop)]
pub enum Ty {
    Uint(Width),
    Boolean,
    /// Fields in order.
    Container(Vec<(Name, TypeId)>),
    /// An element type and a length.
    Vector(TypeId, u64),
    /// An element type and a limit.
    List(TypeId, u64),
    /// A length.
    Bitvector(u64),
    /// A limit.
    Bitlist(u64),
    /// Options in order, None as `None`.
    Union(Vec<Option<TypeId>>),
}
