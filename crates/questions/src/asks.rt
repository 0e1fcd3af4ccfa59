// A frame's listing and then formulas, taken line by line.
ghost use Rattle.std.specs.Prelude.{◌≡◌, ℕ};
ghost use Rattle.frames.specs.Drafts.{drafting};
ghost use Rattle.frames.specs.Frames.{draft_meaning};
ghost use Rattle.questions.specs.Phases.{in_formulas};
ghost use Rattle.questions.specs.Takes.{Takes, Counted, begins};
ghost use Rattle.listings.specs.Runs.{verdict_at};
ghost use Rattle.listings.specs.declared.part.Stage.TheVariants.{SizesNames};
ghost use Rattle.questions.specs.declared.phase.Phase.TheVariants.{Part};
ghost use Rattle.systems.specs.Meaning.{blank, first_sizes};

use crate::phase::Phase;
use formulas::Sentence;
use frames::Draft;
use listings::{LineParser, Rejection, Stage, take_line};
use systems::{Refusal, System};

// At most so many formulas.
pub const MOST: usize = 1024;

// The frame so far, the phase, and how many formulas were taken.
#[derive(Drop)]
pub struct Questions {
    pub phase: Phase,
    pub draft: Draft,
    pub count: usize,
}

impl Questions {
    // Nothing read yet.
    pub fn new() -> Questions
        ensures phase { result.phase ≡ Part SizesNames }
        ensures draft { draft_meaning result.draft ≡ blank first_sizes }
        ensures count { result.count ≡ 0 }
    {
        Questions {
            phase: Phase::Part(Stage::SizesNames),
            draft: Draft::new(),
            count: 0,
        }
    }
}

// Whether the line ends the part and begins the formulas.
fn begins_formulas(stage: Stage, line: &[u8]) -> bool
    ensures { result ≡ begins stage line.now }
{
    stage.may_end() && text::same(line, b"formula")
}

// The count of formulas after this line, where so many came before.
fn ask(draft: &Draft, count: usize, line: &[u8]) -> Result<usize, Refusal>
    ensures { (n : ℕ) → Counted (draft_meaning draft.now) n line.now count result }
{
    let sizes = draft.frame().sizes();
    Sentence::read(line, sizes.actions, sizes.lamps)?;
    if count < MOST {
        Ok(count + 1)
    } else {
        Err(Refusal::Full)
    }
}

impl Questions {
    // Takes one line, without its line feed.
    fn take_line(&mut self, line: &[u8]) -> Result<(), Refusal>
        ensures { (n : ℕ) → Takes (drafting (draft_meaning self.old.draft)) self.old.phase self.old.count n line.now (drafting (draft_meaning self.new.draft)) self.new.phase self.new.count (verdict_at n result) }
    {
        match self.phase {
            Phase::Part(stage) if begins_formulas(stage, line) => self.phase = Phase::Formulas,
            Phase::Part(stage) => self.phase = Phase::Part(take_line(
                &mut self.draft,
                stage,
                line,
            )?),
            Phase::Formulas => self.count = ask(&self.draft, self.count, line)?,
        }
        Ok(())
    }
}

impl LineParser for Questions {
    ghost takes = { λ p n l q v. Takes (drafting (draft_meaning p.draft)) p.phase p.count n l (drafting (draft_meaning q.draft)) q.phase q.count v };

    ghost complete = { λ p. in_formulas p.phase };

    fn take(&mut self, number: usize, line: &[u8]) -> Result<(), Rejection> {
        self.take_line(line).map_err(|refusal| Rejection {
            refusal,
            line: number,
        })
    }

    fn is_complete(&self) -> bool {
        matches!(self.phase, Phase::Formulas)
    }
}
