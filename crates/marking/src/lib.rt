// The marking core: the necessary and the possible set of a sentence over a frame, as words. A set
// is known by its members alone, through the calls of the crate `sets`.
#![tactic(auto)]

mod evaluation;
mod marks;
mod moves;
mod signs;

pub use evaluation::evaluate;
pub use marks::mark_at;
