// Numbers of at most three digits, read from a text.
ghost use Rattle.std.specs.Prelude.{◌≡◌, ℕ, ◌-◌, ◌<◌, cond, MatchOption, ◌≢◌};
ghost use Rattle.text.specs.Numbers.{decimal, is_digit, numeral};

// The value of a byte that is a digit.
fn value(byte: u8) -> Option<usize>
    ensures { result ≡ cond (is_digit byte) (Some (byte - 48)) None }
{
    match byte {
        b'0'..=b'9' => Some(usize::from(byte - b'0')),
        _ => None,
    }
}

// The number that `text` shows, in one to three digits with no needless zero.
#[tactic(auto, using(crate::proofs::Numerals::numeral_read))]
pub fn number(text: &[u8]) -> Option<usize>
    ensures value { result ≡ numeral text.now }
    ensures shown { MatchOption result ((n : ℕ) → n < 1000 → text.now ≢ decimal n) (λ n. (n < 1000) × (text.now ≡ decimal n)) }
{
    if matches!(text, [] | [b'0', _, ..] | [_, _, _, _, ..]) {
        return None;
    }
    let mut number = 0;
    for byte in text {
        number = 10 * number + value(*byte)?;
    }
    Some(number)
}
