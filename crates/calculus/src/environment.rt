// A value for each of the three variables.
ghost use Rattle.std.specs.Prelude.{◌≡◌};
ghost use Rattle.calculus.specs.declared.syntax.Variable.{Variable};
ghost use Rattle.calculus.specs.Environments.{value_at};
ghost use Rattle.calculus.specs.Formula.{at_variable};

use crate::syntax::Variable as Letter;

#[derive(Clone, Copy)]
pub struct Environment<T> {
    pub x: T,
    pub y: T,
    pub z: T,
}

impl<T: Copy> Environment<T> {
    // The same value for all.
    pub fn of(value: T) -> Environment<T>
        ensures { (v : Variable) → value_at result v ≡ value }
    {
        Environment {
            x: value,
            y: value,
            z: value,
        }
    }

    pub fn at(self, variable: Letter) -> T
        ensures { result ≡ value_at self variable }
    {
        match variable {
            Letter::X => self.x,
            Letter::Y => self.y,
            Letter::Z => self.z,
        }
    }

    // The environment with another value for one variable.
    pub fn with(self, variable: Letter, value: T) -> Environment<T>
        ensures { value_at result ≡ at_variable (value_at self) variable value }
    {
        match variable {
            Letter::X => Environment { x: value, ..self },
            Letter::Y => Environment { y: value, ..self },
            Letter::Z => Environment { z: value, ..self },
        }
    }
}
