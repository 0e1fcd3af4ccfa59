// How the variables stand at a place of a formula: each is bound there with an even or an odd
// number of negations since its binder, or not bound.
ghost use Rattle.std.specs.Prelude.{◌≡◌};
ghost use Rattle.calculus.specs.Environments.{value_at};
ghost use Rattle.calculus.specs.declared.syntax.Standing.TheVariants.{Even};
ghost use Rattle.calculus.specs.Formula.{Formula, leaf, prefix, at_variable, closed_under, negated};

use calculus::{Environment, Leaf, Prefix, Standing, Variable};

pub(crate) type Standings = Environment<Standing>;

fn negated(variables: Standings) -> Standings
    ensures { value_at result ≡ (λ v. negated (value_at variables v)) }
{
    Environment {
        x: variables.x.negated(),
        y: variables.y.negated(),
        z: variables.z.negated(),
    }
}

// How they stand in the body of a binder, which starts its count of negations anew.
fn in_body(variables: Standings, v: Variable) -> Standings
    ensures { (f : Formula) → closed_under (at_variable (value_at variables) v Even) f ≡ closed_under (value_at result) f }
{
    variables.with(v, Standing::Even)
}

// How they stand under a prefix.
pub(crate) fn under(variables: Standings, p: Prefix) -> Standings
    ensures { (f : Formula) → closed_under (value_at variables) (prefix p f) ≡ closed_under (value_at result) f }
{
    match p {
        Prefix::Not => negated(variables),
        Prefix::Diamond(_) | Prefix::Box(_) => variables,
        Prefix::Least(v) | Prefix::Greatest(v) => in_body(variables, v),
    }
}

// Whether the leaf may stand here: a variable only with an even number of negations.
pub(crate) fn allow(variables: Standings, l: Leaf) -> bool
    ensures { result ≡ closed_under (value_at variables) (leaf l) }
{
    match l {
        Leaf::True | Leaf::False | Leaf::Lamp(_) => true,
        Leaf::Var(v) => matches!(variables.at(v), Standing::Even),
    }
}
