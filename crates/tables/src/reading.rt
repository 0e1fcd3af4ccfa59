// A table is read as the system that its lists hold: so far, or for good once it is filled.
ghost use Rattle.std.specs.Prelude.{◌≡◌, take};
ghost use Rattle.tables.specs.Tables.{making_of, listed_meaning};

use crate::listed::Listed;
use crate::table::Table;

impl<'a> Table<'a> {
    // The system as it stands so far.
    pub fn read(&self) -> Listed<'_>
        ensures meaning { listed_meaning result ≡ (making_of self.now).system }
        ensures bounds { result.bounds ≡ self.now.bounds }
        ensures moves { take result.moves.used result.moves.places.now ≡ take self.now.moves.used self.now.moves.places.now }
        ensures move_places { result.moves.places.now ≡ self.now.moves.places.now }
        ensures moves_used { result.moves.used ≡ self.now.moves.used }
        ensures lights { take result.lights.used result.lights.places.now ≡ take self.now.lights.used self.now.lights.places.now }
        ensures light_places { result.lights.places.now ≡ self.now.lights.places.now }
        ensures lights_used { result.lights.used ≡ self.now.lights.used }
    {
        Listed {
            bounds: self.bounds,
            moves: self.moves.entries(),
            lights: self.lights.entries(),
        }
    }

    // The system, with the table used up. The lists are handed out as they stand, with the places that
    // hold no entry too.
    pub fn finish(self) -> Listed<'a>
        ensures meaning { listed_meaning result ≡ (making_of self.entry).system }
        ensures bounds { result.bounds ≡ self.entry.bounds }
        ensures moves { take result.moves.used result.moves.places.now ≡ take self.entry.moves.used self.entry.moves.places.now }
        ensures move_places { result.moves.places.now ≡ self.entry.moves.places.now }
        ensures moves_used { result.moves.used ≡ self.entry.moves.used }
        ensures lights { take result.lights.used result.lights.places.now ≡ take self.entry.lights.used self.entry.lights.places.now }
        ensures light_places { result.lights.places.now ≡ self.entry.lights.places.now }
        ensures lights_used { result.lights.used ≡ self.entry.lights.used }
    {
        let Table {
            bounds,
            moves,
            lights,
        } = self;
        Listed {
            bounds,
            moves: moves.into_entries(),
            lights: lights.into_entries(),
        }
    }
}
