// What the lines of a listing say.
ghost use Rattle.std.specs.Prelude.{◌≡◌};
ghost use Rattle.listings.specs.Forms.{letter_in, choice_in, sizes_in, move_in, light_in};

use systems::{Entry, LampAt, LightEntry, Modality, Move, MoveEntry, Setting, Sizes};

// The number of a letter among the eight from `first` on.
fn letter(word: &[u8], first: u8) -> Option<usize>
    ensures { result ≡ letter_in first word.now }
{
    match word {
        [b] if *b >= first && *b - first < 8 => Some(usize::from(*b - first)),
        _ => None,
    }
}

// The value that a word stands for, where each of two words stands for one.
fn choice<T: Copy>(word: &[u8], first: &[u8], a: T, second: &[u8], b: T) -> Option<T>
    ensures { result ≡ choice_in first.now a second.now b word.now }
{
    if text::same(word, first) {
        Some(a)
    } else if text::same(word, second) {
        Some(b)
    } else {
        None
    }
}

pub(crate) fn sizes_of(line: &[u8]) -> Option<Sizes>
    ensures { result ≡ sizes_in line.now }
{
    let (states, rest) = text::cut_at(line, b' ')?;
    let (actions, rest) = text::cut_at(rest, b' ')?;
    let (lamps, start) = text::cut_at(rest, b' ')?;
    Some(Sizes {
        states: text::number(states)?,
        actions: text::number(actions)?,
        lamps: text::number(lamps)?,
        start: text::number(start)?,
    })
}

pub(crate) fn move_of(line: &[u8]) -> Option<MoveEntry>
    ensures { result ≡ move_in line.now }
{
    let (from, rest) = text::cut_at(line, b' ')?;
    let (action, rest) = text::cut_at(rest, b' ')?;
    let (to, kind) = text::cut_at(rest, b' ')?;
    let at = Move {
        from: text::number(from)?,
        action: letter(action, b'a')?,
        to: text::number(to)?,
    };
    let value = choice(kind, b"optional", Modality::May, b"certain", Modality::Must)?;
    Some(Entry { at, value })
}

pub(crate) fn light_of(line: &[u8]) -> Option<LightEntry>
    ensures { result ≡ light_in line.now }
{
    let (state, rest) = text::cut_at(line, b' ')?;
    let (lamp, light) = text::cut_at(rest, b' ')?;
    let at = LampAt {
        state: text::number(state)?,
        lamp: letter(lamp, b'p')?,
    };
    let value = choice(light, b"on", Setting::On, b"off", Setting::Off)?;
    Some(Entry { at, value })
}
