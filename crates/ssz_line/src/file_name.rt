ghost use Rattle.std.specs.Prelude.{◌≡◌, IsTrue};
ghost use Rattle.ssz_line.specs.Single.{is_file};

use ssz_schema::Name;
use std::marker::Model;
use std::str;

/// The name of a file, seen as its bytes: 1 to 255 ASCII letters, digits, `_`, `.`, `-` or `/`.
#[derive(Debug, Drop)]
pub struct FileName {
    name: Name,
}

impl Model for FileName {
    ghost use Rattle.std.specs.Prelude.{List, ℕ, IsTrue};
    ghost use Rattle.ssz_line.specs.Single.{is_file};

    ghost Value = { List ℕ };

    ghost view = { λ a. a.name };

    ghost invariant = { λ a. IsTrue (is_file a.name) };
}

impl FileName {
    /// The file name of a text that is one.
    pub fn new(name: Name) -> Self
        requires { IsTrue (is_file name) }
        ensures { result ≡ name }
    {
        FileName { name }
    }

    /// The name as text, which is of this grammar.
    pub fn as_str(&self) -> &str
        ensures text { result.now ≡ self.now }
        ensures file { IsTrue (is_file self.now) }
    {
        str::from_utf8(self.name.as_bytes()).unwrap()
    }
}
