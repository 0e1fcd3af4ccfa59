// What is asked of a formula that was read, by recursion over its parts.
ghost use Rattle.std.specs.Prelude.{◌≡◌, ◌≤◌, suc, if◌then◌else◌};
ghost use Rattle.calculus.specs.Environments.{value_at};
ghost use Rattle.calculus.specs.Formula.{Formula, prefix, within_letters, closed_under, closed, nesting};
ghost use Rattle.formulas.specs.Readings.{formula_answer};
ghost use Rattle.formulas.specs.Shapes.{formula_of};

use crate::letters::Letters;
use crate::standings::{Standings, allow, under};
use crate::subformula::{Shape, Subformula};
use calculus::{Environment, Prefix, Standing};
use systems::Refusal;

// How many binders may stand within one another.
const DEEPEST: usize = 3;

fn is_binder(p: Prefix) -> bool
    ensures { (f : Formula) → nesting (prefix p f) ≡ (if result then suc (nesting f) else nesting f) }
{
    matches!(p, Prefix::Least(_) | Prefix::Greatest(_))
}

impl Subformula<'_> {
    // Whether it names only these actions and lamps.
    fn is_within(self, letters: Letters) -> bool
        ensures { result ≡ within_letters letters.actions letters.lamps (formula_of self.entry) }
    {
        match self.shape() {
            Shape::Leaf(l) => letters.has_leaf(l),
            Shape::Prefix(p, body) => letters.has_prefix(p) && body.is_within(letters),
            Shape::Binary(_, left, right) => left.is_within(letters) && right.is_within(letters),
        }
    }

    // Whether each variable stands under an even number of negations, where those that are bound
    // further out stand as given.
    fn is_closed_under(self, variables: Standings) -> bool
        ensures { result ≡ closed_under (value_at variables) (formula_of self.entry) }
    {
        match self.shape() {
            Shape::Leaf(l) => allow(variables, l),
            Shape::Prefix(p, body) => body.is_closed_under(under(variables, p)),
            Shape::Binary(_, left, right) => {
                left.is_closed_under(variables) && right.is_closed_under(variables)
            }
        }
    }

    // Whether each variable is bound, with an even number of negations up to it.
    fn is_closed(self) -> bool
        ensures { result ≡ closed (formula_of self.entry) }
    {
        self.is_closed_under(Environment::of(Standing::Free))
    }

    // How many binders stand within one another.
    fn depth(self) -> usize
        ensures value { result ≡ nesting (formula_of self.entry) }
        ensures small { result ≤ self.entry.at }
    {
        match self.shape() {
            Shape::Leaf(_) => 0,
            Shape::Prefix(p, body) => body.depth() + usize::from(is_binder(p)),
            Shape::Binary(_, left, right) => left.depth().max(right.depth()),
        }
    }

    // The first of the three that fails.
    pub(crate) fn judge(self, letters: Letters) -> Result<(), Refusal>
        ensures { result ≡ formula_answer letters.actions letters.lamps (formula_of self.entry) }
    {
        if !self.is_within(letters) {
            return Err(Refusal::ForeignLetter);
        }
        if !self.is_closed() {
            return Err(Refusal::Unbound);
        }
        if self.depth() > DEEPEST {
            return Err(Refusal::Nesting);
        }
        Ok(())
    }
}
