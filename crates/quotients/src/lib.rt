// Quotients: a system and a map of its states to classes, read from one text and folded into a
// frame.
#![tactic(auto)]

mod forms;
mod map;
mod naming;
mod parser;
mod phase;
mod reader;
mod takes;

pub use map::ClassMap;
pub use parser::QuotientParser;
pub use phase::Phase;
pub use reader::quotient;
