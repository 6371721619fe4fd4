ghost use Rattle.std.specs.Prelude.{◌≡◌, ◌+◌, ◌≤◌, OnOk, OnErr, IsOk};

use super::tree::Cell;
use std::alloc::{AllocError, Global};
use std::marker::Model;

/// Memory for entries, taken before they come, seen as the number of them.
#[derive(Debug, Drop)]
pub(crate) struct Pool {
    alloc: Global,
    rooms: Vec<Box<Cell>>,
}

impl Model for Pool {
    ghost use Rattle.std.specs.Prelude.{ℕ, vec_len};
    ghost use Rattle.std.specs.Coded.{coded_ℕ};

    ghost Value = { ℕ };

    ghost coded = { coded_ℕ };

    ghost view = { λ a. vec_len a.rooms };
}

impl Pool {
    /// Memory for no entries.
    pub(crate) fn new(alloc: Global) -> Self
        ensures { result ≡ 0 }
    {
        Pool {
            alloc,
            rooms: Vec::new(alloc),
        }
    }

    /// Where the memory comes from.
    pub(crate) fn alloc(&self) -> Global {
        self.alloc
    }

    /// Memory for an entry: of the pool, or else new.
    pub(crate) fn take(&mut self) -> Result<Box<Cell>, AllocError>
        ensures ok { OnOk result (self.old ≤ self.new + 1) }
        ensures err { OnErr result (self.old ≡ 0) }
        ensures rest { OnErr result (self.new ≡ 0) }
    {
        match self.rooms.pop() {
            Some(room) => Ok(room),
            None => Ok(Box::new(self.alloc, Cell::Blank)?),
        }
    }

    /// Memory for n entries at least. Where there is as much, none is taken.
    pub(crate) fn reserve(&mut self, n: usize) -> Result<(), AllocError>
        ensures ok { OnOk result (n ≤ self.new) }
        ensures more { self.old ≤ self.new }
        ensures idle { n ≤ self.old → IsOk result }
        ensures same { n ≤ self.old → self.new ≡ self.old }
    {
        while self.rooms.len() < n {
            let room = Box::new(self.alloc, Cell::Blank)?;
            self.rooms.push(room)?;
        }
        Ok(())
    }
}
