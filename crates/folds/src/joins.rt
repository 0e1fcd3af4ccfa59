// The rows that join each state of the system below to its class.
ghost use Rattle.std.specs.Prelude.{◌≡◌, ℕ, ◌<◌, length};
ghost use Rattle.sets.specs.Sets.{width};
ghost use Rattle.folds.specs.Folds.{class_of};
ghost use Rattle.folds.specs.Joins.{join_answer, LeftBehind, Faithful, RowsOf};

use crate::classes::Classes;
use crate::fold::Fold;
use sets::Set;
use systems::{Refusal, System};

impl<S: System> Fold<S> {
    // Fills the row of each state of the system with the set of just its class. So joined, the
    // system refines the fold.
    #[tactic(auto, using(crate::proofs::Joined::answer_by_rows, crate::proofs::Joined::class_held))]
    pub fn join(&self, rows: &mut [Set]) -> Result<(), Refusal>
        ensures answer { result ≡ join_answer (S.System.meaning self.now.system) self.now.classes.of self.now.count (length rows.old) }
        ensures rows { LeftBehind result self.now.classes.of rows.old rows.new }
        ensures faithful { Faithful (S.System.meaning self.now.system) self.now.classes.of self.now.count result rows.new }
    {
        let members = self.members().ok_or(Refusal::Mismatch)?;
        if rows.len() != members.below.sizes.states {
            return Err(Refusal::Rows);
        }
        fill(rows, &self.classes);
        Ok(())
    }
}

fn fill(rows: &mut [Set], classes: &Classes)
    requires { (s : ℕ) → s < length rows.old → class_of classes.now.of s < width }
    ensures { RowsOf classes.now.of rows.new }
{
    for (state, row) in rows.iter_mut().enumerate() {
        *row = sets::with(sets::empty(), classes.class_of(state));
    }
}
