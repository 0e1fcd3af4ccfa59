// Texts as slices of bytes: their lines, their parts up to a byte, and the numbers in them. What is
// handed out is part of the caller's slice, and nothing is copied.
#![tactic(auto)]

mod equals;
mod fields;
mod lines;
mod numbers;
mod writes;

pub use equals::same;
pub use fields::{cut_at, find, place_of};
pub use lines::line;
pub use numbers::number;
pub use writes::Writer;
