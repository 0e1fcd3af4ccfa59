// The interface of a system: three questions. What an implementation means is its ghost member
// `meaning`, and each question answers from it, for every argument.
ghost use Rattle.std.specs.Prelude.{◌≡◌};
ghost use Rattle.systems.specs.Meaning.{Meaning, Lawful};

use crate::kinds::{Kind, Light};
use crate::places::{LampAt, Move, Sizes};

pub trait System {
    ghost meaning: { Self → Meaning };

    fn sizes(&self) -> Sizes
        ensures { result ≡ (meaning self.now).sizes };

    // The kind of a move; absent beyond the sizes.
    fn kind(&self, at: Move) -> Kind
        ensures { result ≡ (meaning self.now).kind at.from at.action at.to };

    // What a lamp shows in a state; unknown beyond the sizes.
    fn light(&self, at: LampAt) -> Light
        ensures { result ≡ (meaning self.now).light at.state at.lamp };

    ghost lawful: { (x : Self) → Lawful (meaning x) };
}
