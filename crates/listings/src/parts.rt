// A part of a paper as something that takes lines.
ghost use Rattle.listings.specs.Parts.{may_end};
ghost use Rattle.listings.specs.Readings.{line_step};
ghost use Rattle.listings.specs.Runs.{Took};

use crate::parser::LineParser;
use crate::part::{Stage, take_line};
use crate::rejection::Rejection;
use systems::Builder;

#[derive(Drop)]
pub struct PartParser<B> {
    pub stage: Stage,
    pub builder: B,
}

impl<B: Builder> LineParser for PartParser<B> {
    ghost takes = { λ p n l q v. Took line_step (p.stage, B.Builder.making p.builder) n l (q.stage, B.Builder.making q.builder) v };

    ghost complete = { λ p. may_end p.stage };

    fn take(&mut self, number: usize, line: &[u8]) -> Result<(), Rejection> {
        self.stage = take_line(&mut self.builder, self.stage, line).map_err(|refusal| Rejection {
            refusal,
            line: number,
        })?;
        Ok(())
    }

    fn is_complete(&self) -> bool {
        self.stage.may_end()
    }
}
