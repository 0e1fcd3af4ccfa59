// The states from which moves on an action enter a set. `May` asks for the possible moves, and
// `Must` for the certain ones.
ghost use Rattle.std.specs.Prelude.{◌≡◌};
ghost use Rattle.calculus.specs.Pairs.{diamond_pair, box_pair};
ghost use Rattle.frames.specs.Frames.{meaning_of};
ghost use Rattle.sets.specs.Sets.{has};
ghost use Rattle.systems.specs.Meaning.{states};
ghost use Rattle.systems.specs.Words.{among};
ghost use Rattle.marking.specs.Evaluated.{word_pair};
ghost use Rattle.marking.specs.Holding.{Filled, Holds};
ghost use Rattle.marking.specs.Moves.{enters_some, enters_only};

use frames::Frame;
use sets::Set;
use systems::{Modality, System};

// The states from which some move enters the set.
fn some_into(frame: &Frame, modality: Modality, action: usize, set: Set) -> Set
    ensures { Filled (states (meaning_of frame.now)) (enters_some (among modality) (meaning_of frame.now) action (has set)) result }
{
    let enters = |state|
        ensures { result ≡ enters_some (among modality) (meaning_of frame.entry.now) action (has set) state }
    { sets::meets(frame.moves_from(state, action, modality), set) };
    sets::select(frame.sizes().states, enters)
}

// The states from which every move enters the set.
fn only_into(frame: &Frame, modality: Modality, action: usize, set: Set) -> Set
    ensures { Filled (states (meaning_of frame.now)) (enters_only (among modality) (meaning_of frame.now) action (has set)) result }
{
    let enters = |state|
        ensures { result ≡ enters_only (among modality) (meaning_of frame.entry.now) action (has set) state }
    { sets::is_within(frame.moves_from(state, action, modality), set) };
    sets::select(frame.sizes().states, enters)
}

// Under `<a>`: some certain move enters the necessary set; some possible move enters the possible
// one.
pub(crate) fn diamond(frame: &Frame, action: usize, pair: (Set, Set)) -> (Set, Set)
    ensures { Holds (meaning_of frame.now) (diamond_pair (meaning_of frame.now) action (word_pair pair)) result }
{
    (
        some_into(frame, Modality::Must, action, pair.0),
        some_into(frame, Modality::May, action, pair.1),
    )
}

// Under `[a]`: every possible move enters the necessary set; every certain move enters the possible
// one.
pub(crate) fn boxed(frame: &Frame, action: usize, pair: (Set, Set)) -> (Set, Set)
    ensures { Holds (meaning_of frame.now) (box_pair (meaning_of frame.now) action (word_pair pair)) result }
{
    (
        only_into(frame, Modality::May, action, pair.0),
        only_into(frame, Modality::Must, action, pair.1),
    )
}
