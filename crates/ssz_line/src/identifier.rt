ghost use Rattle.std.specs.Prelude.{◌≡◌};
ghost use Rattle.ssz_schema.specs.Names.{IsName};

use ssz_schema::Name;
use std::marker::Model;

/// The name of a version, a type or a field, seen as its bytes: 1 to 64 ASCII letters, digits or
/// `_`, no digit first.
#[derive(Debug, Drop)]
pub struct Identifier {
    name: Name,
}

impl Model for Identifier {
    ghost use Rattle.std.specs.Prelude.{List, ℕ};
    ghost use Rattle.ssz_schema.specs.Names.{IsName};

    ghost Value = { List ℕ };

    ghost view = { λ a. a.name };

    ghost invariant = { λ a. IsName a.name };
}

impl Identifier {
    /// The identifier of a text that is a name.
    pub fn new(name: Name) -> Self
        requires { IsName name }
        ensures { result ≡ name }
    {
        Identifier { name }
    }

    /// The text, which is a name.
    pub fn as_name(&self) -> &Name
        ensures text { result.now ≡ self.now }
        ensures name { IsName self.now }
    {
        &self.name
    }
}
