// A quotient's text as something that takes lines.
ghost use Rattle.listings.specs.Runs.{Took};
ghost use Rattle.quotients.specs.Phases.{may_end};
ghost use Rattle.quotients.specs.Progress.{progress_of};
ghost use Rattle.quotients.specs.Steps.{step};

use crate::parser::QuotientParser;
use listings::{LineParser, Rejection};

impl LineParser for QuotientParser<'_> {
    ghost takes = { λ p n l q v. Took step (progress_of p) n l (progress_of q) v };

    ghost complete = { λ p. may_end p.phase };

    fn take(&mut self, number: usize, line: &[u8]) -> Result<(), Rejection> {
        self.take_line(line).map_err(|refusal| Rejection {
            refusal,
            line: number,
        })
    }

    fn is_complete(&self) -> bool {
        self.phase.may_end()
    }
}
