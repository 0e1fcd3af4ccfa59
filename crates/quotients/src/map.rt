// A map of states to classes that is being read. Every class is below their count, so the map can
// be folded by at any time.
ghost use Rattle.std.specs.Prelude.{ℕ, ◌<◌, ◌≤◌, None, slice_index_or, unwrap_or};
ghost use Rattle.sets.specs.Sets.{width};

#[derive(Clone, Copy)]
pub struct ClassMap {
    pub(crate) count: usize,
    // The class of each state that has been named. The others are in class 0.
    pub(crate) classes: [Option<u8>; 256],
    ghost some: { 1 ≤ count },
    ghost few: { count ≤ width },
    ghost below: { (s : ℕ) → unwrap_or (slice_index_or classes s None) 0 < count },
}
