// Tables: systems of up to 256 states, written into lists of moves and lights that their owner
// lends.
#![tactic(auto)]

mod builds;
mod lent;
mod listed;
mod lookup;
mod reading;
mod table;

pub use lent::MOST_ENTRIES;
pub use listed::Listed;
pub use systems::{LightEntry, MoveEntry};
pub use table::Table;
