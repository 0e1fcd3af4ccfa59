// A case marks the states of its frame by formulas.
ghost use Rattle.std.specs.Prelude.{◌≡◌};
ghost use Rattle.cases.specs.Marks.{SetsAnswer, MarkAnswer};
ghost use Rattle.frames.specs.Frames.{meaning_of};

use crate::case::Case;
use calculus::Mark;
use formulas::Sentence;
use marking::{evaluate, mark_at};
use sets::Set;
use systems::{Refusal, System};

impl<C: System> Case<C> {
    // The necessary and the possible set of a formula, as sets of frame states.
    pub fn sets(&self, formula: &[u8]) -> Result<(Set, Set), Refusal>
        ensures { SetsAnswer (meaning_of self.now.frame) formula.now result }
    {
        let sizes = self.frame.sizes();
        let sentence = Sentence::read(formula, sizes.actions, sizes.lamps)?;
        Ok(evaluate(&sentence, &self.frame))
    }

    // The mark of a frame state by a formula.
    pub fn mark(&self, state: usize, formula: &[u8]) -> Result<Mark, Refusal>
        ensures { MarkAnswer (meaning_of self.now.frame) state formula.now result }
    {
        if state >= self.frame.sizes().states {
            return Err(Refusal::NoState);
        }
        Ok(mark_at(self.sets(formula)?, state))
    }
}
