// What a frame holds, asked for a whole set of states at once.
ghost use Rattle.std.specs.Prelude.{◌≡◌, ℕ};
ghost use Rattle.frames.specs.Frames.{meaning_of};
ghost use Rattle.sets.specs.Sets.{has};
ghost use Rattle.systems.specs.Words.{among, shows};

use crate::frame::Frame;
use sets::Set;
use systems::{Modality, Setting};

impl Frame {
    // The states that a state's moves on an action enter: its possible moves, or its certain ones.
    #[tactic(auto, using(crate::proofs::Held::may_held))]
    pub fn moves_from(&self, state: usize, action: usize, modality: Modality) -> Set
        ensures { (t : ℕ) → has result t ≡ among modality ((meaning_of self.now).kind state action t) }
    {
        let targets = self.grid.targets(state, action);
        match modality {
            Modality::May => targets.may,
            Modality::Must => targets.must,
        }
    }

    // The states where a lamp is on, or off.
    #[tactic(auto, using(crate::proofs::Held::off_held))]
    pub fn lit(&self, lamp: usize, setting: Setting) -> Set
        ensures { (s : ℕ) → has result s ≡ shows setting ((meaning_of self.now).light s lamp) }
    {
        let lights = self.grid.lights(lamp);
        match setting {
            Setting::On => lights.on,
            Setting::Off => lights.off,
        }
    }
}
