// How a frame is made and changed, one move or one light at a time.
ghost use Rattle.std.specs.Prelude.{◌≡◌, if◌then◌else◌};
ghost use Rattle.systems.specs.Meaning.{move_within, light_within, blank, with_move, with_light};
ghost use Rattle.frames.specs.Frames.{meaning_of};

use crate::frame::Frame;
use crate::grid::Grid;
use sets::WIDTH;
use systems::{Bounds, Kind, LampAt, Light, Move};

impl Frame {
    // The frame of these sizes with no moves and every lamp unknown.
    pub(crate) fn blank(bounds: Bounds<WIDTH>) -> Frame
        ensures { meaning_of result ≡ blank bounds.sizes }
    {
        Frame {
            bounds,
            grid: Grid::blank(),
        }
    }

    // Gives one move the kind `kind`; a move beyond the sizes changes nothing.
    pub fn set_move(&mut self, at: Move, kind: Kind)
        ensures { meaning_of self.new ≡ (if move_within (meaning_of self.old).sizes at.from at.action at.to then with_move (meaning_of self.old) at.from at.action at.to kind else meaning_of self.old) }
    {
        if self.bounds.sizes.check_move(at).is_ok() {
            self.grid.set_move(at, kind);
        }
    }

    // Has one lamp of a state show `light`; a lamp or a state beyond the sizes changes nothing.
    pub fn set_light(&mut self, at: LampAt, light: Light)
        ensures { meaning_of self.new ≡ (if light_within (meaning_of self.old).sizes at.state at.lamp then with_light (meaning_of self.old) at.state at.lamp light else meaning_of self.old) }
    {
        if self.bounds.sizes.check_lamp(at).is_ok() {
            self.grid.set_light(at, light);
        }
    }
}
