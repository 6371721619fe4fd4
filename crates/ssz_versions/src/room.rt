use super::tree::Cell;
use std::alloc::{AllocError, Global};
use std::marker::Model;

/// Memory for one version, taken before the version is made.
#[derive(Debug, Drop)]
pub struct Room {
    pub(crate) cell: Box<Cell>,
}

// One room is as good as another.
impl Model for Room {
    ghost use base.Stored.{coded_unit};

    ghost Value = { Unit {0} };

    ghost coded = { coded_unit };

    ghost view = { λ a. tt };
}

impl Room {
    /// Takes the memory.
    pub fn new(alloc: Global) -> Result<Self, AllocError> {
        let cell = Box::new(alloc, Cell::Blank)?;
        Ok(Room { cell })
    }
}
