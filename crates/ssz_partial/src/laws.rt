ghost use Rattle.ssz_partial.specs.Laws.{LawOfGets, LawOfRoots, LawOfSets};
ghost use Rattle.ssz_partial.specs.Runs.{LawOfRuns};

/// Of every value whose tree has the chunks that are known: what is read is the encoding of its
/// part, what is refused as absent is absent in it, the root that is calculated is its root, and
/// what is set is set in it, so that its tree has what is then known. All of this holds of any
/// calls one after another, each on the value that the ones before made.
pub fn partial_trees_tell_values()
    ensures gets { LawOfGets }
    ensures roots { LawOfRoots }
    ensures sets { LawOfSets }
    ensures runs { LawOfRuns }
{}
