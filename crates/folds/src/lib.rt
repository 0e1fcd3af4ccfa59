// Folds: a system with its states put together into classes, which is again a system.
#![tactic(auto)]

mod classes;
mod fold;
mod joins;
mod members;
mod questions;

pub use classes::Classes;
pub use fold::Fold;
