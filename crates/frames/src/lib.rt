// Frames: systems of at most as many states as a set can hold, kept as sets. A draft is a frame
// that is being made.
#![tactic(auto)]

mod asks;
mod draft;
mod edits;
mod frame;
mod grid;
mod load;

pub use draft::Draft;
pub use frame::Frame;
