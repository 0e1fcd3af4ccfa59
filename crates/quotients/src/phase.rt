// What the next line of a quotient's text is: a line of the part, the number of classes, the names
// of the map, or a state with its class. The names of the classes end the lights of the part.
ghost use Rattle.std.specs.Prelude.{◌≡◌};
ghost use Rattle.quotients.specs.Phases.{may_end};

use listings::Stage;

#[derive(Clone, Copy)]
pub enum Phase {
    Part(Stage),
    Count,
    MapNames,
    Map,
}

impl Phase {
    // Whether the text may end here.
    pub(crate) fn may_end(self) -> bool
        ensures { result ≡ may_end self }
    {
        matches!(self, Phase::Map)
    }
}
