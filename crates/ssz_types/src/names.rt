ghost use Rattle.std.specs.Prelude.{◌≡◌, ℕ, List};

use super::name::Name;
use std::marker::Model;

/// Names in order, seen as a list.
#[derive(Debug, Drop)]
pub struct Names {
    names: Vec<Name>,
}

impl Model for Names {
    ghost Value = { List (List ℕ) };

    ghost view = { λ a. a.names.items };
}

impl Names {
    /// The names of this vector.
    pub fn from_vec(names: Vec<Name>) -> Self
        ensures { result ≡ names.items }
    {
        Names { names }
    }

    /// The names in order.
    pub fn as_slice(&self) -> &[Name]
        ensures { result.now ≡ self.now }
    {
        self.names.as_slice()
    }
}
