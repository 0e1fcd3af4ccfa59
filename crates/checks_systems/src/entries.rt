// What lists are filled with before a table is written into them, and short forms of places.
use systems::{Entry, LampAt, LightEntry, Modality, Move, MoveEntry, Setting};

pub(crate) fn no_move() -> MoveEntry {
    Entry {
        at: on(0, 0, 0),
        value: Modality::May,
    }
}

pub(crate) fn no_light() -> LightEntry {
    Entry {
        at: lamp(0, 0),
        value: Setting::Off,
    }
}

// The move from one state on an action to another.
pub(crate) fn on(from: usize, action: usize, to: usize) -> Move {
    Move { from, action, to }
}

// A lamp of a state.
pub(crate) fn lamp(state: usize, lamp: usize) -> LampAt {
    LampAt { state, lamp }
}
