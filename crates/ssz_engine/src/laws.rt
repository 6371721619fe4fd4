ghost use Rattle.ssz_engine.specs.Laws.{LawOfSetCosts};

/// Where the root of a version is known, a basic part of it that is set, and the root after that,
/// take at most one pair a level of the part's index.
pub fn sets_hash_their_way()
    ensures { LawOfSetCosts }
{}
