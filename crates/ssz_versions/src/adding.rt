ghost use Rattle.std.specs.Prelude.{◌≡◌, ◌+◌, ◌≤◌, ◌++◌, T, vec_len};
ghost use Rattle.std.specs.FinMap.Entries.{find, is_sorted};
ghost use Rattle.ssz_versions.specs.Keys.{Key, key_cmp};

use super::pool::Pool;
use super::tree::{Entry, Tree};

/// With entries for which there is room, the last one first.
pub(crate) fn with_all(held: Tree, pool: &mut Pool, mut added: Vec<Entry>) -> Tree
    requires ordered { T (is_sorted key_cmp held) }
    requires room { vec_len added ≤ pool.old }
    ensures entries { (key : Key) → find key_cmp key result
        ≡ find key_cmp key (added.items ++ held) }
    ensures spare { pool.old ≤ pool.new + vec_len added }
    ensures ordered { T (is_sorted key_cmp result) }
{
    let mut tree = held;
    while let Some((key, version)) = added.pop() {
        match pool.take() {
            Ok(room) => tree = tree.insert(room, &key, version),
            Err(_) => unreachable!(),
        }
    }
    tree
}
