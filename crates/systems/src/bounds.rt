// Sizes that were tested.
ghost use Rattle.std.specs.Prelude.{◌≡◌, ◌<◌, ◌≤◌, MatchResult, Ok, Err};
ghost use Rattle.systems.specs.Edits.{size_answer};

use crate::places::Sizes;
use crate::refusal::Refusal;

// Sizes of a system with at most `MOST` states, within all their limits.
#[derive(Clone, Copy)]
pub struct Bounds<const MOST: usize> {
    pub sizes: Sizes,
    ghost some_states: { 0 < sizes.states },
    ghost few_states: { sizes.states ≤ MOST },
    ghost few_actions: { sizes.actions ≤ 8 },
    ghost few_lamps: { sizes.lamps ≤ 8 },
    ghost started: { sizes.start < sizes.states },
}

impl<const MOST: usize> Bounds<MOST> {
    // The sizes, if they are within the limits.
    pub fn check(sizes: Sizes) -> Result<Bounds<MOST>, Refusal>
        ensures { MatchResult result (λ b. (b.sizes ≡ sizes) × (size_answer MOST sizes ≡ Ok tt)) (λ e. size_answer MOST sizes ≡ Err e) }
    {
        if sizes.states == 0 || sizes.states > MOST {
            return Err(Refusal::States);
        }
        if sizes.actions > 8 || sizes.lamps > 8 {
            return Err(Refusal::Letters);
        }
        if sizes.start >= sizes.states {
            return Err(Refusal::Start);
        }
        Ok(Bounds { sizes })
    }
}
