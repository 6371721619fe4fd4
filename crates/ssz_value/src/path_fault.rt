ghost use Rattle.std.specs.Prelude.{◌≡◌, ◌<◌, length};
ghost use Rattle.ssz_schema.specs.Unfolding.{type_of};
ghost use Rattle.ssz_value.specs.Parts.{fault_without};

use ssz_schema::{PathStep, Schema, TypeId};

/// Why a path leads to no part of a value: the first of these, in this order, that holds.
#[derive(Clone, Copy, Debug, PartialEq, Eq)]
pub enum PathFault {
    /// The path does not fit the type, whatever the value is.
    BadPath,
    /// The path fits, and leads past the length of a list or bitlist, or to an option that is not
    /// the present one.
    Absent,
}

impl PathFault {
    /// Why a value of the type has no part at the path: that the path does not fit comes first.
    pub fn without(schema: &Schema, id: TypeId, path: &[PathStep]) -> PathFault
        requires { id < length schema.now.trees }
        ensures { result ≡ fault_without (type_of schema.now id) path.now }
    {
        match schema.path_type(id, path) {
            Some(_) => PathFault::Absent,
            None => PathFault::BadPath,
        }
    }
}
