// The reader of formulas: a text of at most 128 bytes becomes a closed formula, held as nodes each
// of which names only earlier ones.
#![tactic(auto)]

mod checks;
mod laws;
mod letters;
mod node;
mod reader;
mod sentence;
mod signs;
mod standings;
mod subformula;

pub use laws::texts_have_one_reading;
pub use node::Node;
pub use sentence::Sentence;
pub use subformula::{Shape, Subformula};
