// A table: a system that is being written into lists of moves and lights that their owner lends.
ghost use Rattle.systems.specs.Meaning.{first_sizes};
ghost use Rattle.std.specs.Prelude.{◌≡◌};
ghost use Rattle.tables.specs.Entries.{table_making};
ghost use Rattle.tables.specs.Tables.{making_of};

use crate::lent::Lent;
use systems::{Bounds, LightEntry, MoveEntry, Sizes};

#[derive(Drop)]
pub struct Table<'a> {
    pub(crate) bounds: Bounds<256>,
    pub(crate) moves: Lent<'a, MoveEntry>,
    pub(crate) lights: Lent<'a, LightEntry>,
}

impl<'a> Table<'a> {
    // One state, no actions and no lamps.
    pub fn new(moves: &'a mut [MoveEntry], lights: &'a mut [LightEntry]) -> Table<'a>
        ensures making { making_of result ≡ table_making first_sizes moves.old 0 lights.old 0 }
        ensures moves { result.moves.places.now ≡ moves.old }
        ensures lights { result.lights.places.now ≡ lights.old }
        ensures lent_moves { result.moves.places.ghost_name ≡ moves.entry.ghost_name }
        ensures lent_lights { result.lights.places.ghost_name ≡ lights.entry.ghost_name }
    {
        let sizes = Sizes {
            states: 1,
            actions: 0,
            lamps: 0,
            start: 0,
        };
        Table {
            bounds: Bounds { sizes },
            moves: Lent::new(moves),
            lights: Lent::new(lights),
        }
    }
}
