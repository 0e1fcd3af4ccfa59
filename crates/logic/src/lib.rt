// How refinement carries the marks of formulas from one system to another, proved once for all
// systems. The theorems stand on the contracts of functions that do nothing.
#![tactic(auto)]

mod theorems;

pub use theorems::{
    definite_systems_decide, equal_marks_refine_both_ways, formulas_have_one_pair,
    marks_are_consistent, marks_characterise_refinement, refinement_preserves_marks,
    tightening_keeps_marks, tightening_refines,
};
