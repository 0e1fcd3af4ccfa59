// The run over a text, line by line, written once for all that takes lines.
ghost use Rattle.std.specs.Prelude.{◌≡◌, ℕ, Bool, List};
ghost use Rattle.listings.specs.Runs.{Run, Verdict};

use crate::rejection::Rejection;
use systems::Refusal;

// What takes the lines of a text one after another.
pub trait LineParser {
    // What a line, with its number, makes of the parser, and what is answered.
    ghost takes: { Self → ℕ → List ℕ → Self → Verdict → Type 0 };

    // Where the text may end.
    ghost complete: { Self → Bool };

    fn take(&mut self, number: usize, line: &[u8]) -> Result<(), Rejection>
        ensures { takes self.old number line.now self.new result };

    fn is_complete(&self) -> bool
        ensures { result ≡ complete self.now };
}

// The most bytes of a paper, that is, of a text that is handed in.
pub const LONGEST: usize = 32768;

// Hands the lines of `text` to the parser until one is refused or the text ends.
#[tactic(auto, using(crate::proofs::Feeding::feeding))]
pub fn parse<P: LineParser>(parser: &mut P, text: &[u8]) -> Result<(), Rejection>
    ensures { Run P.takes P.complete text.now parser.old parser.new result }
{
    if text.len() > LONGEST {
        return Err(Rejection {
            refusal: Refusal::Length,
            line: 0,
        });
    }
    let mut rest = text;
    let mut number = 1;
    while !rest.is_empty() {
        let Some((line, next)) = text::cut_at(rest, b'\n') else {
            return Err(Rejection {
                refusal: Refusal::Form,
                line: number,
            });
        };
        parser.take(number, line)?;
        rest = next;
        number += 1;
    }
    if parser.is_complete() {
        Ok(())
    } else {
        Err(Rejection {
            refusal: Refusal::Form,
            line: number,
        })
    }
}
