// What the signs of formulas do to a pair of sets.
ghost use Rattle.std.specs.Prelude.{◌≡◌, ℕ, Decides, nat_lt};
ghost use Rattle.calculus.specs.Pairs.{leaf_pair, not_pair, binary_pair};
ghost use Rattle.frames.specs.Frames.{meaning_of};
ghost use Rattle.sets.specs.Sets.{has};
ghost use Rattle.systems.specs.Meaning.{states};
ghost use Rattle.marking.specs.Evaluated.{word_pair};
ghost use Rattle.marking.specs.Holding.{OnlyStates, Holds};
ghost use Rattle.marking.specs.Values.{ValuesOnly, values_of};

use calculus::{Binary, Environment, Leaf};
use frames::Frame;
use sets::Set;
use systems::{Setting, System};

// The set of all states.
fn all_states(frame: &Frame) -> Set
    ensures { (s : ℕ) → has result s ≡ nat_lt s (states (meaning_of frame.now)) }
{
    sets::below(frame.sizes().states)
}

// Whether two sets have the same members.
fn alike(a: Set, b: Set) -> bool
    ensures { Decides result ((j : ℕ) → has a j ≡ has b j) }
{
    sets::is_within(a, b) && sets::is_within(b, a)
}

pub(crate) fn same(p: (Set, Set), q: (Set, Set)) -> bool
    ensures { Decides result ((j : ℕ) → (has p.0 j ≡ has q.0 j) × (has p.1 j ≡ has q.1 j)) }
{
    alike(p.0, q.0) && alike(p.1, q.1)
}

// A lamp holds necessarily where it is on, and possibly where it is not off.
#[tactic(auto, using(crate::proofs::Entered::lit_states))]
pub(crate) fn leaf(frame: &Frame, l: Leaf, values: Environment<(Set, Set)>) -> (Set, Set)
    requires { ValuesOnly (meaning_of frame.now) values }
    ensures { Holds (meaning_of frame.now) (leaf_pair (meaning_of frame.now) (values_of values) l) result }
{
    let all = all_states(frame);
    match l {
        Leaf::True => (all, all),
        Leaf::False => (sets::empty(), sets::empty()),
        Leaf::Lamp(lamp) => (
            frame.lit(lamp, Setting::On),
            sets::minus(all, frame.lit(lamp, Setting::Off)),
        ),
        Leaf::Var(v) => values.at(v),
    }
}

// Outside the possible set, then outside the necessary one.
pub(crate) fn negated(frame: &Frame, pair: (Set, Set)) -> (Set, Set)
    ensures { Holds (meaning_of frame.now) (not_pair (word_pair pair)) result }
{
    let all = all_states(frame);
    (sets::minus(all, pair.1), sets::minus(all, pair.0))
}

pub(crate) fn joined(frame: &Frame, o: Binary, p: (Set, Set), q: (Set, Set)) -> (Set, Set)
    requires { (OnlyStates (meaning_of frame.now) p) × (OnlyStates (meaning_of frame.now) q) }
    ensures { Holds (meaning_of frame.now) (binary_pair o (word_pair p) (word_pair q)) result }
{
    match o {
        Binary::And => (sets::intersection(p.0, q.0), sets::intersection(p.1, q.1)),
        Binary::Or => (sets::union(p.0, q.0), sets::union(p.1, q.1)),
    }
}
