ghost use Rattle.std.specs.Prelude.{◌≡◌, T};
ghost use Rattle.std.specs.FinMap.Entries.{is_sorted, put};
ghost use Rattle.ssz_versions.specs.Keys.{key_cmp};

use super::balance::{fork, join};
use super::key::VersionKey;
use super::tree::{Branch, Cell, Tree};
use ssz_arena::NodeId;
use ssz_schema::TypeId;
use std::cmp::Ordering;

impl Tree {
    /// With something held under the key, in memory that was taken before. In place of what was
    /// held there, if anything was.
    pub(crate) fn insert(self, room: Box<Cell>, key: &VersionKey, held: (TypeId, NodeId)) -> Tree
        requires { T (is_sorted key_cmp self) }
        ensures { result ≡ put key_cmp key.now held self }
    {
        let Some(branch) = self.open() else {
            let entry = (key.of(key.writer()), held);
            return fork(room, Tree::empty(), entry, Tree::empty());
        };
        let Branch {
            room: own_room,
            left,
            entry,
            right,
        } = branch;
        match key.order(&entry.0) {
            Ordering::Less => join(own_room, left.insert(room, key, held), entry, right),
            Ordering::Equal => fork(own_room, left, (entry.0, held), right),
            Ordering::Greater => join(own_room, left, entry, right.insert(room, key, held)),
        }
    }
}
