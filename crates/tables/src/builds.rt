// A table is something that a system is written into, with a place of the lists for each entry.
// Each call says besides which place of the lists it changed, so that their owner knows what they
// hold when they come back.
ghost use Rattle.std.specs.Prelude.{◌≡◌, slice_set};
ghost use Rattle.systems.specs.Edits.{after};
ghost use Rattle.systems.specs.Making.{sized, sized_answer, moved, moved_answer, lit, lit_answer};
ghost use Rattle.systems.specs.Words.{drawn, shown};
ghost use Rattle.tables.specs.Tables.{making_of, entry, KeepsLists};

use crate::table::Table;
use systems::{Bounds, Builder, Entry, LampAt, Modality, Move, Refusal, Setting, Sizes, System};

impl Builder for Table<'_> {
    ghost making = { making_of };

    fn size(&mut self, sizes: Sizes) -> Result<(), Refusal>
        ensures answer { result ≡ sized_answer (making_of self.old) sizes }
        ensures after { making_of self.new ≡ after result (sized (making_of self.old) sizes) (making_of self.old) }
        ensures moves { self.new.moves.places.now ≡ self.old.moves.places.now }
        ensures lights { self.new.lights.places.now ≡ self.old.lights.places.now }
        ensures lent { KeepsLists self.old self.new }
    {
        self.bounds = Bounds::check(sizes)?;
        self.moves.clear();
        self.lights.clear();
        Ok(())
    }

    #[tactic(auto, using(crate::proofs::Makings::takes_move))]
    fn draw(&mut self, at: Move, modality: Modality) -> Result<(), Refusal>
        ensures answer { result ≡ moved_answer (making_of self.old) at.from at.action at.to }
        ensures after { making_of self.new ≡ after result (moved (making_of self.old) at.from at.action at.to (drawn modality)) (making_of self.old) }
        ensures moves { self.new.moves.places.now ≡ after result (slice_set self.old.moves.places.now self.old.moves.used (entry at modality)) self.old.moves.places.now }
        ensures lights { self.new.lights.places.now ≡ self.old.lights.places.now }
        ensures lent { KeepsLists self.old self.new }
    {
        self.bounds.sizes.check_move(at)?;
        if self.read().kind(at).is_possible() {
            return Err(Refusal::Repeated);
        }
        self.moves.push(Entry {
            at,
            value: modality,
        })
    }

    #[tactic(auto, using(crate::proofs::Makings::takes_light))]
    fn light(&mut self, at: LampAt, setting: Setting) -> Result<(), Refusal>
        ensures answer { result ≡ lit_answer (making_of self.old) at.state at.lamp }
        ensures after { making_of self.new ≡ after result (lit (making_of self.old) at.state at.lamp (shown setting)) (making_of self.old) }
        ensures moves { self.new.moves.places.now ≡ self.old.moves.places.now }
        ensures lights { self.new.lights.places.now ≡ after result (slice_set self.old.lights.places.now self.old.lights.used (entry at setting)) self.old.lights.places.now }
        ensures lent { KeepsLists self.old self.new }
    {
        self.bounds.sizes.check_lamp(at)?;
        if self.read().light(at).is_known() {
            return Err(Refusal::Repeated);
        }
        self.lights.push(Entry { at, value: setting })
    }
}
