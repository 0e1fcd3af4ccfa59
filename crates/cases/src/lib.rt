// Cases: a frame over a controller. A case is opened from a draft, which is used up; from then on no
// move is drawn any more, and the frame is only tightened.
#![tactic(auto)]

mod case;
mod marks;

pub use case::Case;
