// What is said of a place of a system, one entry to a place.
use crate::kinds::{Modality, Setting};
use crate::places::{LampAt, Move};

#[derive(Clone, Copy, PartialEq, Eq, Debug)]
pub struct Entry<P, V> {
    pub at: P,
    pub value: V,
}

// A move that is there, and whether it is optional or certain.
pub type MoveEntry = Entry<Move, Modality>;

// A lamp that is known in a state, and what it shows.
pub type LightEntry = Entry<LampAt, Setting>;
