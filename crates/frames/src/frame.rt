// A frame, with what every frame keeps: its sizes are within the limits, its start and its moves
// are among its states, a certain move is possible, and no lamp is both on and off.
ghost use Rattle.std.specs.Prelude.{◌≡◌, ℕ, true, false};
ghost use Rattle.systems.specs.Meaning.{move_within, light_within};
ghost use Rattle.frames.specs.Grids.{may_at, must_at, on_at, off_at};

use crate::grid::Grid;
use sets::WIDTH;
use systems::{Bounds, Kind, LampAt, Light, Move, Sizes, System};

#[derive(Drop)]
pub struct Frame {
    pub(crate) bounds: Bounds<WIDTH>,
    pub(crate) grid: Grid,
    ghost moves_within: { (e : ℕ × ℕ × ℕ) → may_at grid e.0 e.1 e.2 ≡ true → move_within bounds.sizes e.0 e.1 e.2 ≡ true },
    ghost certain_possible: { (e : ℕ × ℕ × ℕ) → must_at grid e.0 e.1 e.2 ≡ true → may_at grid e.0 e.1 e.2 ≡ true },
    ghost on_within: { (e : ℕ × ℕ) → on_at grid e.0 e.1 ≡ true → light_within bounds.sizes e.0 e.1 ≡ true },
    ghost off_within: { (e : ℕ × ℕ) → off_at grid e.0 e.1 ≡ true → light_within bounds.sizes e.0 e.1 ≡ true },
    ghost not_both: { (e : ℕ × ℕ) → on_at grid e.0 e.1 ≡ true → off_at grid e.0 e.1 ≡ false },
}

impl System for Frame {
    ghost use Rattle.frames.specs.Frames.{meaning_of};
    ghost use Rattle.frames.specs.Laws.{lawful as frame_lawful};

    ghost meaning = { meaning_of };

    ghost lawful = { frame_lawful };

    fn sizes(&self) -> Sizes {
        self.bounds.sizes
    }

    fn kind(&self, at: Move) -> Kind {
        self.grid.targets(at.from, at.action).kind(at.to)
    }

    fn light(&self, at: LampAt) -> Light {
        self.grid.lights(at.lamp).light(at.state)
    }
}
