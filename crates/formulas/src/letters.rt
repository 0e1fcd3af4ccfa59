// The letters that a system has.
ghost use Rattle.std.specs.Prelude.{◌≡◌, ◌&&◌};
ghost use Rattle.calculus.specs.Formula.{Formula, leaf, prefix, within_letters};

use calculus::{Leaf, Prefix};

// How many actions and lamps there are.
#[derive(Clone, Copy)]
pub(crate) struct Letters {
    pub(crate) actions: usize,
    pub(crate) lamps: usize,
}

impl Letters {
    // Whether a leaf names only these.
    pub(crate) fn has_leaf(self, l: Leaf) -> bool
        ensures { result ≡ within_letters self.actions self.lamps (leaf l) }
    {
        match l {
            Leaf::True | Leaf::False | Leaf::Var(_) => true,
            Leaf::Lamp(lamp) => lamp < self.lamps,
        }
    }

    // Whether a prefix names only these, whatever stands after it.
    pub(crate) fn has_prefix(self, p: Prefix) -> bool
        ensures { (f : Formula) → within_letters self.actions self.lamps (prefix p f) ≡ (result && within_letters self.actions self.lamps f) }
    {
        match p {
            Prefix::Diamond(action) | Prefix::Box(action) => action < self.actions,
            Prefix::Not | Prefix::Least(_) | Prefix::Greatest(_) => true,
        }
    }
}
