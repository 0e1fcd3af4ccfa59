// A system with its sizes, which are asked for once.
ghost use Rattle.std.specs.Prelude.{◌≡◌};

use crate::places::Sizes;
use crate::system::System;

#[derive(Drop)]
pub struct Measured<'a, S: System> {
    pub system: &'a S,
    pub sizes: Sizes,
    ghost measured: { sizes ≡ (S.meaning system.now).sizes },
}

impl<'a, S: System> Measured<'a, S> {
    pub fn of(system: &'a S) -> Measured<'a, S>
        ensures { result.system.now ≡ system.now }
    {
        Measured {
            system,
            sizes: system.sizes(),
        }
    }
}
