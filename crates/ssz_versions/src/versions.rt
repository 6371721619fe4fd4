ghost use Rattle.std.specs.Prelude.{◌≡◌, ◌+◌, ◌≤◌, ℕ, List, None, length, IsOk, IsOkAnd, IfOk, OnOk, OnErr, option_map};
ghost use Rattle.std.specs.Borrow.{sem};
ghost use Rattle.std.specs.FinMap as finite;
ghost use Rattle.ssz_schema.specs.Names.{IsName};
ghost use Rattle.ssz_versions.specs.Content.{held_at, entry_names, with_held};
ghost use Rattle.ssz_versions.specs.Lending.{LendsNode};
ghost use Rattle.ssz_versions.specs.Outcomes.{Adopts, MakesEntry, ForksEntry, Drops, KeepsEntries};

use super::adding::with_all;
use super::fault::VersionFault;
use super::key::VersionKey;
use super::pool::Pool;
use super::room::Room;
use super::tree::Tree;
use super::writer::Writer;
use ssz_arena::NodeId;
use ssz_schema::{Name, Names, TypeId};
use std::alloc::{AllocError, Global};
use std::marker::Model;
use std::mem;

/// What each writer holds under each of its names.
#[derive(Debug, Drop)]
pub struct Versions {
    pub(crate) held: Tree,
    pool: Pool,
}

// The entries, and for how many more there is room.
impl Model for Versions {
    ghost use Rattle.std.specs.Prelude.{T};
    ghost use Rattle.std.specs.FinMap as finite;
    ghost use Rattle.std.specs.FinMap.Entries.{is_sorted};
    ghost use Rattle.ssz_versions.specs.Content.{VersionsContent, content_code};
    ghost use Rattle.ssz_versions.specs.Keys.{key_cmp};

    ghost Value = { VersionsContent };

    ghost coded = { content_code };

    ghost view = { λ a. record {
      entries = finite.from_sorted a.held;
      spare = a.pool;
    } };

    ghost invariant = { λ a. T (is_sorted key_cmp a.held) };
}

impl Versions {
    /// No versions.
    pub fn empty(alloc: Global) -> Result<Self, AllocError>
        ensures { IsOkAnd result (λ versions. versions.entries ≡ finite.empty) }
    {
        Ok(Versions {
            held: Tree::empty(),
            pool: Pool::new(alloc),
        })
    }

    /// What the writer holds under the name.
    pub fn get(&self, writer: Writer, name: &Name) -> Option<(TypeId, NodeId)>
        requires { IsName name.now }
        ensures { result ≡ held_at self.now.entries writer.0 name.now }
    {
        self.held.find(&VersionKey::new(writer.0, name.as_bytes()))
    }

    /// The node of a version, for writing another one.
    pub fn edit(&mut self, writer: Writer, name: &Name) -> Option<&mut NodeId>
        requires { IsName name.now }
        ensures* writes_back { sem 𝓛 (LendsNode self.entry writer.0 name.now result) }
        ensures node { option_map (λ id. id.now) result
            ≡ option_map (λ held. held.1) (held_at self.old.entries writer.0 name.now) }
    {
        let key = VersionKey::new(writer.0, name.as_bytes());
        if self.held.find(&key).is_none() {
            return None;
        }
        match mem::replace(&mut self.held, Tree::empty()).raise(&key) {
            None => None,
            Some(branch) => self.held.lend_closed(branch),
        }
    }

    /// A version under a name that the writer does not hold yet. Takes no memory while there is
    /// room.
    pub fn make(
        &mut self,
        writer: Writer,
        name: &Name,
        id: TypeId,
        node: NodeId,
    ) -> Result<(), VersionFault>
        requires { IsName name.now }
        ensures made { MakesEntry result self.old self.new writer.0 name.now (id, node) }
        ensures spare { self.old.spare ≤ self.new.spare + 1 }
        ensures kept { OnErr result (self.old.spare ≤ self.new.spare) }
    {
        let key = VersionKey::new(writer.0, name.as_bytes());
        if self.held.find(&key).is_some() {
            return Err(VersionFault::NameTaken);
        }
        match self.pool.take() {
            Ok(room) => {
                let held = mem::replace(&mut self.held, Tree::empty());
                self.held = held.insert(room, &key, (id, node));
                Ok(())
            }
            Err(_) => Err(VersionFault::Memory),
        }
    }

    /// A version under a name, in memory that was taken before: in place of what the writer held
    /// there, if anything was. Takes no memory.
    pub fn put(&mut self, room: Room, writer: Writer, name: &Name, id: TypeId, node: NodeId)
        requires { IsName name.now }
        ensures entries { self.new.entries
            ≡ with_held self.old.entries writer.0 name.now (id, node) }
        ensures spare { self.new.spare ≡ self.old.spare }
    {
        let key = VersionKey::new(writer.0, name.as_bytes());
        let held = mem::replace(&mut self.held, Tree::empty());
        self.held = held.insert(room.cell, &key, (id, node));
    }

    /// A second version with the type and the node of a first. Takes no memory while there is room.
    pub fn fork(&mut self, writer: Writer, from: &Name, to: &Name) -> Result<(), VersionFault>
        requires from { IsName from.now }
        requires to { IsName to.now }
        ensures forked { ForksEntry result self.old self.new writer.0 from.now to.now }
        ensures spare { self.old.spare ≤ self.new.spare + 1 }
        ensures kept { OnErr result (self.old.spare ≤ self.new.spare) }
    {
        let Some(held) = self.get(writer, from) else {
            return Err(VersionFault::NoVersion);
        };
        self.make(writer, to, held.0, held.1)
    }

    /// Takes a version away, with its memory.
    pub fn drop_version(&mut self, writer: Writer, name: &Name) -> Result<(), VersionFault>
        requires { IsName name.now }
        ensures dropped { Drops result self.old self.new writer.0 name.now }
        ensures spare { self.old.spare ≤ self.new.spare }
    {
        let key = VersionKey::new(writer.0, name.as_bytes());
        if self.held.find(&key).is_none() {
            return Err(VersionFault::NoVersion);
        }
        let held = mem::replace(&mut self.held, Tree::empty());
        self.held = held.remove(&key);
        Ok(())
    }

    /// Makes room for n more versions. Where there is as much, nothing is changed and no memory
    /// taken.
    pub fn reserve(&mut self, n: usize) -> Result<(), AllocError>
        ensures entries { KeepsEntries self.old self.new }
        ensures ok { OnOk result (n ≤ self.new.spare) }
        ensures more { self.old.spare ≤ self.new.spare }
        ensures idle { n ≤ self.old.spare → IsOk result }
        ensures same { n ≤ self.old.spare → self.new ≡ self.old }
    {
        self.pool.reserve(n)
    }

    /// The names of a writer, in the order of their bytes.
    pub fn names(&self, alloc: Global, writer: Writer) -> Result<Names, AllocError>
        ensures { IfOk result (λ names. names ≡ entry_names self.now.entries writer.0) }
    {
        let mut names = Vec::new(alloc);
        self.held.names(alloc, writer.0, &mut names)?;
        Ok(Names::from_vec(names))
    }

    /// Gives a writer that holds nothing all that another one holds: an entry takes room for one.
    /// Fails for want of memory, and nothing is changed then but that there may be more room.
    pub fn adopt(&mut self, from: Writer, to: Writer) -> Result<(), AllocError>
        requires { (name : List ℕ) → held_at self.old.entries to.0 name ≡ None }
        ensures ok { OnOk result (Adopts self.old.entries self.new.entries from.0 to.0) }
        ensures err { OnErr result (KeepsEntries self.old self.new) }
        ensures spare { self.old.spare
            ≤ self.new.spare + length (entry_names self.old.entries from.0) }
        ensures kept { OnErr result (self.old.spare ≤ self.new.spare) }
    {
        let mut added = Vec::new(self.pool.alloc());
        self.held.relabelled(from.0, to.0, &mut added)?;
        self.pool.reserve(added.len())?;
        let held = mem::replace(&mut self.held, Tree::empty());
        self.held = with_all(held, &mut self.pool, added);
        Ok(())
    }
}
