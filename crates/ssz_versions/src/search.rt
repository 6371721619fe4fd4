ghost use Rattle.std.specs.Prelude.{◌≡◌, T};
ghost use Rattle.std.specs.FinMap.Entries.{find, is_sorted};
ghost use Rattle.ssz_versions.specs.Keys.{key_cmp};

use super::key::VersionKey;
use super::tree::{Cell, Top, Tree};
use ssz_arena::NodeId;
use ssz_schema::TypeId;
use std::cmp::Ordering;

impl Tree {
    /// What is held under the key.
    pub(crate) fn find(&self, key: &VersionKey) -> Option<(TypeId, NodeId)>
        requires { T (is_sorted key_cmp self.now) }
        ensures { result ≡ find key_cmp key.now self.now }
    {
        let Top::Held(cell) = &self.top else {
            return None;
        };
        match &**cell {
            Cell::Blank => None,
            Cell::Full(fork) => match key.order(&fork.entry.0) {
                Ordering::Less => fork.left.find(key),
                Ordering::Equal => Some(fork.entry.1),
                Ordering::Greater => fork.right.find(key),
            },
        }
    }
}
