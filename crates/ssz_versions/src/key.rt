ghost use Rattle.std.specs.Prelude.{◌≡◌, ◌≤◌, length};
ghost use Rattle.ssz_versions.specs.Keys.{key_cmp};

use std::cmp::Ordering;
use std::marker::Model;

// The greatest length of a name.
const NAME_ROOM: usize = 64;

/// A writer and a name, which is kept in place: a key holds no memory of its own.
#[derive(Debug, Drop)]
pub(crate) struct VersionKey {
    writer: u8,
    len: u8,
    bytes: [u8; NAME_ROOM],
}

// The writer's number, and the bytes of the name.
impl Model for VersionKey {
    ghost use Rattle.std.specs.Prelude.{◌≤◌, take};
    ghost use Rattle.ssz_versions.specs.Keys.{Key, key_code};

    ghost Value = { Key };

    ghost coded = { key_code };

    ghost view = { λ a. (a.writer, take a.len a.bytes) };

    ghost invariant = { λ a. a.len ≤ 64 };
}

impl VersionKey {
    /// The key of a writer's name.
    pub(crate) fn new(writer: u8, name: &[u8]) -> Self
        requires { length name.now ≤ 64 }
        ensures { result ≡ (writer, name.now) }
    {
        let mut bytes = [0; NAME_ROOM];
        bytes[..name.len()].copy_from_slice(name);
        VersionKey {
            writer,
            len: name.len() as u8,
            bytes,
        }
    }

    /// The key of a writer's version with the same name.
    pub(crate) fn of(&self, writer: u8) -> Self
        ensures { result ≡ (writer, self.now.1) }
    {
        VersionKey {
            writer,
            len: self.len,
            bytes: self.bytes,
        }
    }

    pub(crate) fn writer(&self) -> u8
        ensures { result ≡ self.now.0 }
    {
        self.writer
    }

    /// The bytes of the name, at most 64.
    pub(crate) fn name(&self) -> &[u8]
        ensures value { result.now ≡ self.now.1 }
        ensures short { length self.now.1 ≤ 64 }
    {
        &self.bytes[..self.len as usize]
    }

    /// By writer, and then by the bytes of the name.
    pub(crate) fn order(&self, other: &Self) -> Ordering
        ensures { result ≡ key_cmp self.now other.now }
    {
        self.writer
            .cmp(&other.writer)
            .then(self.name().cmp(other.name()))
    }
}
