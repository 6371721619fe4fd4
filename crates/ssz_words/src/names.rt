//! What single words of a command line name.
ghost use Rattle.std.specs.Prelude.{◌≡◌, string_bytes};

use std::marker::Model;

/// The name of a file, seen as its bytes. It is a path of the system where a program opens it.
#[derive(Debug, Drop)]
pub struct FileName {
    text: String,
}

impl Model for FileName {
    ghost use Rattle.std.specs.Prelude.{List, ℕ, string_bytes};

    ghost Value = { List ℕ };

    ghost view = { λ a. string_bytes a.text };
}

impl FileName {
    /// The name that a text is.
    pub fn new(text: String) -> Self
        ensures { result ≡ string_bytes text }
    {
        FileName { text }
    }

    /// The name as text.
    pub fn as_str(&self) -> &str
        ensures { result.now ≡ self.now }
    {
        self.text.as_str()
    }
}

/// The names of some files, seen as a list.
#[derive(Debug, Drop)]
pub struct FileNames {
    names: Vec<FileName>,
}

impl Model for FileNames {
    ghost use Rattle.std.specs.Prelude.{List, ℕ};

    ghost Value = { List (List ℕ) };

    ghost view = { λ a. a.names.items };
}

impl FileNames {
    /// These names, in this order.
    pub fn new(names: Vec<FileName>) -> Self
        ensures { result ≡ names.items }
    {
        FileNames { names }
    }

    /// The names in order.
    pub fn as_slice(&self) -> &[FileName]
        ensures { result.now ≡ self.now }
    {
        self.names.as_slice()
    }
}

/// The name of a type, seen as its bytes. Whether a schema has it is for the schema to say.
#[derive(Debug, Drop)]
pub struct TypeName {
    text: String,
}

impl Model for TypeName {
    ghost use Rattle.std.specs.Prelude.{List, ℕ, string_bytes};

    ghost Value = { List ℕ };

    ghost view = { λ a. string_bytes a.text };
}

impl TypeName {
    /// The name that a text is.
    pub fn new(text: String) -> Self
        ensures { result ≡ string_bytes text }
    {
        TypeName { text }
    }

    /// The name as text.
    pub fn as_str(&self) -> &str
        ensures { result.now ≡ self.now }
    {
        self.text.as_str()
    }
}

/// A text that is to be a path into a value, seen as its bytes. Whether it is one is for the reader
/// of paths to say.
#[derive(Debug, Drop)]
pub struct PathText {
    text: String,
}

impl Model for PathText {
    ghost use Rattle.std.specs.Prelude.{List, ℕ, string_bytes};

    ghost Value = { List ℕ };

    ghost view = { λ a. string_bytes a.text };
}

impl PathText {
    /// The text as it stands.
    pub fn new(text: String) -> Self
        ensures { result ≡ string_bytes text }
    {
        PathText { text }
    }

    /// The text as it stands.
    pub fn as_str(&self) -> &str
        ensures { result.now ≡ self.now }
    {
        self.text.as_str()
    }
}

/// In which order writers take turns: their numbers, seen as a list.
#[derive(Debug, Drop)]
pub struct Order {
    writers: Vec<u8>,
}

impl Model for Order {
    ghost use Rattle.std.specs.Prelude.{List, ℕ};

    ghost Value = { List ℕ };

    ghost view = { λ a. a.writers.items };
}

impl Order {
    /// The order in which writers of these numbers take turns.
    pub fn new(writers: Vec<u8>) -> Self
        ensures { result ≡ writers.items }
    {
        Order { writers }
    }

    /// The numbers of the writers in order.
    pub fn writers(&self) -> &[u8]
        ensures { result.now ≡ self.now }
    {
        self.writers.as_slice()
    }
}
