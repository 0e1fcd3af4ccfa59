// Systems whose moves are optional or certain, behind one interface, and the refusals that every
// call of the project answers with.
#![tactic(auto)]

mod bounds;
mod builder;
mod entries;
mod kinds;
mod measured;
mod places;
mod refusal;
mod system;

pub use bounds::Bounds;
pub use builder::Builder;
pub use entries::{Entry, LightEntry, MoveEntry};
pub use kinds::{Kind, Light, Modality, Setting};
pub use measured::Measured;
pub use places::{LampAt, Move, Sizes};
pub use refusal::Refusal;
pub use system::System;
