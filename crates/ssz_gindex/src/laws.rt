ghost use Rattle.ssz_gindex.specs.Laws.{LawOfHelpers, LawOfHelperNodes};

/// The helper indices are a descending list of exactly the helpers, and the only one; and where
/// each index is in a tree, so is each of their helpers.
pub fn helpers_are_beside_the_paths()
    ensures list { LawOfHelpers }
    ensures nodes { LawOfHelperNodes }
{}
