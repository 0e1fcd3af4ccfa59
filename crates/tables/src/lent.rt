// A list that its owner lends, and how many of its places hold entries: the first ones.
ghost use Rattle.std.specs.Prelude.{◌≡◌, ◌≤◌};
ghost use Rattle.tables.specs.Entries.{usable};

use std::alloc::AllocError;
use systems::Refusal;

// The most places of a list that are used.
pub const MOST_ENTRIES: usize = 2048;

#[derive(Drop)]
pub struct Lent<'a, E> {
    pub(crate) places: &'a mut [E],
    pub(crate) used: usize,
    ghost within: { used ≤ usable places.now },
}

// The same of a list that is lent for reading alone.
pub struct Entries<'a, E> {
    pub(crate) places: &'a [E],
    pub(crate) used: usize,
    ghost within: { used ≤ usable places.now },
}

impl<'a, E> Clone for Entries<'a, E> {
    ghost use Rattle.std.specs.Prelude.{⊤};

    ghost is_clone = { λ x y. y ≡ x };

    ghost is_infallible = { λ _. ⊤ };

    fn clone(&self) -> Result<Entries<'a, E>, AllocError> {
        Ok(*self)
    }
}

impl<'a, E> Copy for Entries<'a, E> {}

impl<'a, E> Entries<'a, E> {
    ghost use Rattle.std.specs.Prelude.{take};

    pub(crate) fn as_slice(&self) -> &[E]
        ensures { result.now ≡ take self.now.used self.now.places.now }
    {
        &self.places[..self.used]
    }
}

impl<'a, E: Copy> Lent<'a, E> {
    ghost use Rattle.std.specs.Prelude.{◌+◌, ◌-◌, Some, slice_set};
    ghost use Rattle.systems.specs.Edits.{after};
    ghost use Rattle.systems.specs.Making.{is_full, room_answer};

    // With no entries: what the places hold is forgotten.
    pub(crate) fn new(places: &'a mut [E]) -> Lent<'a, E>
        ensures places { result.places.now ≡ places.old }
        ensures used { result.used ≡ 0 }
        ensures lent { result.places.ghost_name ≡ places.entry.ghost_name }
    {
        Lent { places, used: 0 }
    }

    pub(crate) fn entries(&self) -> Entries<'_, E>
        ensures places { result.places.now ≡ self.now.places.now }
        ensures used { result.used ≡ self.now.used }
    {
        Entries {
            places: self.places,
            used: self.used,
        }
    }

    // The entries, with the list lent for reading from now on.
    pub(crate) fn into_entries(self) -> Entries<'a, E>
        ensures places { result.places.now ≡ self.entry.places.now }
        ensures used { result.used ≡ self.entry.used }
    {
        let Lent { places, used } = self;
        Entries { places, used }
    }

    fn is_full(&self) -> bool
        ensures { result ≡ is_full (Some (usable self.now.places.now - self.now.used)) }
    {
        self.used >= self.places.len().min(MOST_ENTRIES)
    }

    // Writes one more entry, into the first place that holds none.
    pub(crate) fn push(&mut self, entry: E) -> Result<(), Refusal>
        ensures answer { result ≡ room_answer (Some (usable self.old.places.now - self.old.used)) }
        ensures places { self.new.places.now ≡ after result (slice_set self.old.places.now self.old.used entry) self.old.places.now }
        ensures used { self.new.used ≡ after result (self.old.used + 1) self.old.used }
        ensures lent { self.new.places.ghost_name ≡ self.old.places.ghost_name }
    {
        if self.is_full() {
            return Err(Refusal::Full);
        }
        self.places[self.used] = entry;
        self.used += 1;
        Ok(())
    }

    pub(crate) fn clear(&mut self)
        ensures places { self.new.places.now ≡ self.old.places.now }
        ensures used { self.new.used ≡ 0 }
        ensures lent { self.new.places.ghost_name ≡ self.old.places.ghost_name }
    {
        self.used = 0;
    }
}
