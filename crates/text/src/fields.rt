// Parts of a text up to a byte.
ghost use Rattle.std.specs.Prelude.{◌≡◌, ◌+◌, ◌<◌, length, drop, MatchOption};
ghost use Rattle.std.specs.Option.{option_map};
ghost use Rattle.text.specs.Bytes.{before, cut};

// The place of the first `byte` of `text` from the place `from` on, or where the text ends.
pub fn find(text: &[u8], from: usize, byte: u8) -> usize
    ensures { result ≡ from + length (before byte (drop from text.now)) }
{
    let Some(rest) = text.get(from..) else {
        return from;
    };
    from + place_of(rest, byte).unwrap_or(rest.len())
}

// The place of the first `byte` of `text`.
pub fn place_of(text: &[u8], byte: u8) -> Option<usize>
    ensures { MatchOption result (before byte text.now ≡ text.now) (λ at. (at < length text.now) × (at ≡ length (before byte text.now))) }
{
    text.iter().position(|b| *b == byte)
}

// The parts of `text` before and after its first `byte`.
#[tactic(auto, using(crate::proofs::Cuts::cuts))]
pub fn cut_at(text: &[u8], byte: u8) -> Option<(&[u8], &[u8])>
    ensures { option_map (λ p. (p.0.now, p.1.now)) result ≡ cut byte text.now }
{
    let at = place_of(text, byte)?;
    Some((&text[..at], &text[at + 1..]))
}
