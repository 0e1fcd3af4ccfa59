// A map of states to classes.
ghost use Rattle.std.specs.Prelude.{◌≡◌, nat_lt};
ghost use Rattle.std.specs.List.{list_all};
ghost use Rattle.folds.specs.Folds.{class_of};
ghost use Rattle.folds.specs.Maps.{are_classes};

use sets::WIDTH;

// The class of each of 256 states, which are as many as a system can have.
#[derive(Clone, Copy)]
pub struct Classes {
    pub of: [u8; 256],
}

impl Classes {
    // The class of a state; beyond the last state it is 0.
    pub(crate) fn class_of(&self, state: usize) -> usize
        ensures { result ≡ class_of self.now.of state }
    {
        self.of.get(state).map_or(0, |class| usize::from(*class))
    }

    // Whether there may be `count` classes, and each is below that.
    #[tactic(auto, using(crate::proofs::Listed::are_classes_listed))]
    pub(crate) fn are_below(&self, count: usize) -> bool
        ensures { result ≡ are_classes self.now.of count }
    {
        (1..=WIDTH).contains(&count) && self.each_below(count)
    }

    fn each_below(&self, count: usize) -> bool
        ensures { result ≡ list_all (λ class. nat_lt class count) self.now.of }
    {
        self.of.iter().all(|class| usize::from(*class) < count)
    }
}
