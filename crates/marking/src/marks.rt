// The mark of one state.
ghost use Rattle.std.specs.Prelude.{◌≡◌};
ghost use Rattle.calculus.specs.Marks.{mark_of};
ghost use Rattle.marking.specs.Evaluated.{word_pair};

use calculus::Mark;
use sets::Set;

// True in the necessary set, unknown in the possible one alone, false in neither.
pub fn mark_at(sets: (Set, Set), state: usize) -> Mark
    ensures { result ≡ mark_of (word_pair sets) state }
{
    if sets::contains(sets.0, state) {
        Mark::True
    } else if sets::contains(sets.1, state) {
        Mark::Unknown
    } else {
        Mark::False
    }
}
