// What a system is written into: it takes sizes, and then moves and lights one by one. Each call
// answers the first refusal that applies, and a refused one changes nothing.
ghost use Rattle.std.specs.Prelude.{◌≡◌};
ghost use Rattle.systems.specs.Edits.{after};
ghost use Rattle.systems.specs.Making.{Making, sized, sized_answer, moved, moved_answer, lit, lit_answer};
ghost use Rattle.systems.specs.Words.{drawn, shown};

use crate::kinds::{Modality, Setting};
use crate::places::{LampAt, Move, Sizes};
use crate::refusal::Refusal;

pub trait Builder {
    ghost making: { Self → Making };

    // Gives it these sizes, and removes all moves and lights.
    fn size(&mut self, sizes: Sizes) -> Result<(), Refusal>
        ensures answer { result ≡ sized_answer (making self.old) sizes }
        ensures after { making self.new ≡ after result (sized (making self.old) sizes) (making self.old) };

    // Adds a move that is not there yet.
    fn draw(&mut self, at: Move, modality: Modality) -> Result<(), Refusal>
        ensures answer { result ≡ moved_answer (making self.old) at.from at.action at.to }
        ensures after { making self.new ≡ after result (moved (making self.old) at.from at.action at.to (drawn modality)) (making self.old) };

    // Turns an unknown lamp of a state on or off.
    fn light(&mut self, at: LampAt, setting: Setting) -> Result<(), Refusal>
        ensures answer { result ≡ lit_answer (making self.old) at.state at.lamp }
        ensures after { making self.new ≡ after result (lit (making self.old) at.state at.lamp (shown setting)) (making self.old) };
}
