// Where in a system a question is asked, or something is said.
ghost use Rattle.std.specs.Prelude.{◌≡◌};
ghost use Rattle.systems.specs.Edits.{move_place_answer, lamp_place_answer};

use crate::refusal::Refusal;

// A move from one state to another on an action.
#[derive(Clone, Copy, PartialEq, Eq, Debug)]
pub struct Move {
    pub from: usize,
    pub action: usize,
    pub to: usize,
}

// A lamp of a state.
#[derive(Clone, Copy, PartialEq, Eq, Debug)]
pub struct LampAt {
    pub state: usize,
    pub lamp: usize,
}

// How many states, actions and lamps a system has, each numbered from 0, and its start state.
#[derive(Clone, Copy, PartialEq, Eq, Debug)]
pub struct Sizes {
    pub states: usize,
    pub actions: usize,
    pub lamps: usize,
    pub start: usize,
}

impl Sizes {
    // Whether a system of these sizes has such a move's states and its action.
    pub fn check_move(self, at: Move) -> Result<(), Refusal>
        ensures { result ≡ move_place_answer self at.from at.action at.to }
    {
        if at.from >= self.states || at.to >= self.states {
            return Err(Refusal::NoState);
        }
        if at.action >= self.actions {
            return Err(Refusal::NoLetter);
        }
        Ok(())
    }

    // Whether a system of these sizes has the state, and the lamp.
    pub fn check_lamp(self, at: LampAt) -> Result<(), Refusal>
        ensures { result ≡ lamp_place_answer self at.state at.lamp }
    {
        if at.state >= self.states {
            return Err(Refusal::NoState);
        }
        if at.lamp >= self.lamps {
            return Err(Refusal::NoLetter);
        }
        Ok(())
    }
}
