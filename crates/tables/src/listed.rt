// A system as it stands in lists of moves and lights, which are lent for reading.
ghost use Rattle.std.specs.Prelude.{take};
ghost use Rattle.tables.specs.Entries.{table_meaning};
ghost use Rattle.tables.specs.Laws.{entries_lawful};

use crate::lent::Entries;
use crate::lookup::first;
use systems::{Bounds, Kind, LampAt, Light, LightEntry, Move, MoveEntry, Sizes, System};

#[derive(Clone, Copy)]
pub struct Listed<'a> {
    pub(crate) bounds: Bounds<256>,
    pub(crate) moves: Entries<'a, MoveEntry>,
    pub(crate) lights: Entries<'a, LightEntry>,
}

impl System for Listed<'_> {
    ghost meaning = { λ t. table_meaning t.bounds.sizes t.moves.places.now t.moves.used t.lights.places.now t.lights.used };

    ghost lawful = { λ t. entries_lawful t.bounds (take t.moves.used t.moves.places.now) (take t.lights.used t.lights.places.now) };

    fn sizes(&self) -> Sizes {
        self.bounds.sizes
    }

    fn kind(&self, at: Move) -> Kind {
        if self.bounds.sizes.check_move(at).is_err() {
            return Kind::Absent;
        }
        first(self.moves.as_slice(), at).map_or(Kind::Absent, Kind::from)
    }

    fn light(&self, at: LampAt) -> Light {
        if self.bounds.sizes.check_lamp(at).is_err() {
            return Light::Unknown;
        }
        first(self.lights.as_slice(), at).map_or(Light::Unknown, Light::from)
    }
}
