// The theorems. Each stands on the contract of a function that does nothing, so that the crate is
// proved only with its proof.
ghost use Rattle.logic.specs.Theorems.{OnePair, Preservation, Characterisation, Equality, Tightening, Kept, Consistency, Definiteness};

pub fn formulas_have_one_pair()
    ensures { OnePair }
{}

pub fn refinement_preserves_marks()
    ensures { Preservation }
{}

pub fn marks_characterise_refinement()
    ensures { Characterisation }
{}

pub fn equal_marks_refine_both_ways()
    ensures { Equality }
{}

pub fn tightening_refines()
    ensures { Tightening }
{}

pub fn tightening_keeps_marks()
    ensures { Kept }
{}

pub fn marks_are_consistent()
    ensures { Consistency }
{}

pub fn definite_systems_decide()
    ensures { Definiteness }
{}
