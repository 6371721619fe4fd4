use super::name::Name;
use super::width::Width;

/// A type as it is written in a definition, where a name stands for a type.
#[derive(Debug, Drop)]
pub enum TypeExpr {
    /// A built-in type, or the type of an earlier definition.
    Named(Name),
    Uint(Width),
    Boolean,
    /// Fields in order.
    Container(Vec<(Name, TypeExpr)>),
    /// An element type and a length.
    Vector(Box<TypeExpr>, u64),
    /// An element type and a limit.
    List(Box<TypeExpr>, u64),
    /// A length.
    Bitvector(u64),
    /// A limit.
    Bitlist(u64),
    /// Options in order, None as `None`.
    Union(Vec<Option<TypeExpr>>),
}
