// A frame's listing followed by formulas, one to a line, as something that takes lines.
#![tactic(auto)]

mod asks;
mod phase;

pub use asks::Questions;
pub use phase::Phase;
