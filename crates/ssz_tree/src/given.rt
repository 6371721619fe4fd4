ghost use Rattle.std.specs.Prelude.{◌≡◌, slice_index_or, None};

use ssz_arena::NodeId;

/// The node that is given for field i; behind the end none is.
pub fn given_at(given: &[Option<NodeId>], i: usize) -> Option<NodeId>
    ensures { result ≡ slice_index_or given.now i None }
{
    if i < given.len() {
        return given[i];
    }
    None
}
