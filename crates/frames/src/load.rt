// A draft takes over any system that is small enough, whatever implements it.
ghost use Rattle.std.specs.Prelude.{◌≡◌, ℕ, false, slice_index_or, MatchResult, Ok, Err};
ghost use Rattle.sets.specs.Sets.{width};
ghost use Rattle.systems.specs.Edits.{after, load_answer};
ghost use Rattle.frames.specs.Frames.{draft_meaning};

use crate::draft::Draft;
use crate::frame::Frame;
use crate::grid::{Grid, Lights, Row, Targets};
use sets::WIDTH;
use std::array;
use systems::{Bounds, LampAt, Move, Refusal, System};

impl Draft {
    // The draft becomes a copy of the system.
    #[tactic(auto, using(crate::proofs::Taken::taken))]
    pub fn load<S: System>(&mut self, system: &S) -> Result<(), Refusal>
        ensures answer { result ≡ load_answer width (S.meaning system.now) }
        ensures after { draft_meaning self.new ≡ after result (S.meaning system.now) (draft_meaning self.old) }
    {
        let small = Small::of(system)?;
        let mut grid = Grid::blank();
        small.fill(&mut grid);
        self.frame = Frame {
            bounds: small.bounds,
            grid,
        };
        Ok(())
    }
}

// A system that a frame has room for.
#[derive(Drop)]
struct Small<'a, S: System> {
    system: &'a S,
    bounds: Bounds<WIDTH>,
    ghost measured: { bounds.sizes ≡ (S.meaning system.now).sizes },
}

impl<'a, S: System> Small<'a, S> {
    ghost use Rattle.frames.specs.Grids.{may_at, must_at, blank_row, no_lights};
    ghost use Rattle.frames.specs.Loads.{HoldsMoves, HoldsRow, HoldsLights};

    fn of(system: &'a S) -> Result<Small<'a, S>, Refusal>
        ensures { MatchResult result (λ s. (s.system.now ≡ system.now) × (load_answer width (S.meaning system.now) ≡ Ok tt)) (λ e. load_answer width (S.meaning system.now) ≡ Err e) }
    {
        let bounds = Bounds::check(system.sizes())?;
        Ok(Small { system, bounds })
    }

    // Each move is asked for once, and goes into both sets.
    fn targets(&self, from: usize, action: usize) -> Targets
        ensures { HoldsMoves self.now.bounds.sizes (S.meaning self.now.system.now) from action result }
    {
        let sizes = self.bounds.sizes;
        let mut targets = Targets::none();
        if from < sizes.states && action < sizes.actions {
            for to in 0..sizes.states {
                targets.set(to, self.system.kind(Move { from, action, to }));
            }
        }
        targets
    }

    fn row(&self, from: usize) -> Row
        ensures { HoldsRow self.now.bounds.sizes (S.meaning self.now.system.now) from result }
    {
        Row {
            by_action: array::from_fn(|action| self.targets(from, action)),
        }
    }

    fn lights(&self, lamp: usize) -> Lights
        ensures { HoldsLights self.now.bounds.sizes (S.meaning self.now.system.now) lamp result }
    {
        let sizes = self.bounds.sizes;
        let mut lights = Lights::none();
        if lamp < sizes.lamps {
            for state in 0..sizes.states {
                lights.set(state, self.system.light(LampAt { state, lamp }));
            }
        }
        lights
    }

    // Fills in a blank table. A row beyond the states stays as it is: most do in a small system.
    fn fill(&self, grid: &mut Grid)
        requires no_may { (s a t : ℕ) → may_at grid.old s a t ≡ false }
        requires no_must { (s a t : ℕ) → must_at grid.old s a t ≡ false }
        ensures rows { (s : ℕ) → HoldsRow self.now.bounds.sizes (S.meaning self.now.system.now) s (slice_index_or grid.new.rows s blank_row) }
        ensures lamps { (l : ℕ) → HoldsLights self.now.bounds.sizes (S.meaning self.now.system.now) l (slice_index_or grid.new.lamps l no_lights) }
    {
        for from in 0..self.bounds.sizes.states {
            grid.rows[from] = self.row(from);
        }
        grid.lamps = array::from_fn(|lamp| self.lights(lamp));
    }
}
