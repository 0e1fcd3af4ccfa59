// Formulas of the modal mu-calculus, and what they mean in a system with optional and certain
// moves. The meaning is a definition, in specs/: nothing here computes it.
#![tactic(auto)]

mod environment;
mod syntax;

pub use environment::Environment;
pub use syntax::{Binary, Leaf, Mark, Prefix, Standing, Variable};
