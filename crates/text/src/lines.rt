// The lines of a text.
ghost use Rattle.std.specs.Prelude.{◌≡◌};
ghost use Rattle.std.specs.Option.{option_map};
ghost use Rattle.text.specs.Lines.{lines, line_at};

use crate::fields::cut_at;

// The line of a number, counted from 1, without its line feed: that part of `text` itself. Bytes
// after the last line feed are a line too.
#[tactic(auto, using(crate::proofs::Feeds::line_later))]
pub fn line(text: &[u8], number: usize) -> Option<&[u8]>
    ensures { option_map (λ x. x.now) result ≡ line_at (lines text.now) number }
{
    let mut rest = text;
    for _ in 1..number {
        rest = cut_at(rest, b'\n')?.1;
    }
    if number == 0 || rest.is_empty() {
        return None;
    }
    Some(cut_at(rest, b'\n').map_or(rest, |parts| parts.0))
}
