// The signs of which formulas are made. Actions and lamps go by their numbers.
ghost use Rattle.std.specs.Prelude.{◌≡◌};
ghost use Rattle.calculus.specs.Formula.{negated};

use std::fmt;

#[derive(Clone, Copy, PartialEq, Eq, Debug)]
pub enum Variable {
    X,
    Y,
    Z,
}

#[derive(Clone, Copy, PartialEq, Eq, Debug)]
pub enum Leaf {
    True,
    False,
    Lamp(usize),
    Var(Variable),
}

// What stands before one formula: a negation, "some move on the action enters" (diamond), "every
// move on the action enters" (box), or a binder of a variable, for the least or the greatest fixed
// point.
#[derive(Clone, Copy, PartialEq, Eq, Debug)]
pub enum Prefix {
    Not,
    Diamond(usize),
    Box(usize),
    Least(Variable),
    Greatest(Variable),
}

#[derive(Clone, Copy, PartialEq, Eq, Debug)]
pub enum Binary {
    And,
    Or,
}

// How a variable stands to the place where it is read: under no binder of its own, or with an even
// or an odd number of negations since the innermost one.
#[derive(Clone, Copy, PartialEq, Eq, Debug)]
pub enum Standing {
    Free,
    Even,
    Odd,
}

impl Standing {
    // How it stands under one negation more.
    pub fn negated(self) -> Standing
        ensures { result ≡ negated self }
    {
        match self {
            Standing::Free => Standing::Free,
            Standing::Even => Standing::Odd,
            Standing::Odd => Standing::Even,
        }
    }
}

// What a state is marked with.
#[derive(Clone, Copy, PartialEq, Eq, Debug)]
pub enum Mark {
    True,
    False,
    Unknown,
}

impl fmt::Display for Mark {
    fn fmt<W: fmt::Write>(&self, f: &mut fmt::Formatter<W>) -> fmt::Result {
        match self {
            Mark::True => write!(f, "true"),
            Mark::False => write!(f, "false"),
            Mark::Unknown => write!(f, "unknown"),
        }
    }
}
