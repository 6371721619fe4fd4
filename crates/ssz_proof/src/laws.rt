ghost use Rattle.ssz_proof.specs.Judgement.{LawOfJudgement};
ghost use Rattle.ssz_proof.specs.Laws.{LawOfProofs, LawOfTexts};

/// From chunks of a tree at some leaves and at their helper indices the tree's root is calculated.
pub fn proofs_give_the_root()
    ensures { LawOfProofs }
{}

/// The text of a proof is read as that proof.
pub fn texts_give_the_proof()
    ensures { LawOfTexts }
{}

/// The test of lists, `is_multiproof`, is true exactly of a multiproof.
pub fn lists_are_judged()
    ensures { LawOfJudgement }
{}
