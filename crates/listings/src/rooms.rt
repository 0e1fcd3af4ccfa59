// How many bytes are booked for the text of a frame.
ghost use Rattle.std.specs.Prelude.{◌≡◌, ℕ, ◌*◌, ◌^◌, ◌<◌, ◌≤◌};
ghost use Rattle.frames.specs.Frames.{meaning_of, draft_meaning};
ghost use Rattle.listings.specs.Rooms.{sum_below, one_if, moves_on, moves_of, lights_of, count_moves, count_lights, room_of};

use frames::{Draft, Frame};
use systems::{LampAt, Move, System};

pub fn room(draft: &Draft) -> usize
    ensures { result ≡ room_of (draft_meaning draft.now) }
{
    let frame = draft.frame();
    80 + 17 * (moves_in(frame) + lights_in(frame))
}

// The sum of what is counted at each number below `n`, where that is at most `most`.
fn total<F: Fn(usize) -> usize>(n: usize, most: usize, count: F) -> usize
    requires callable { F.IsAlwaysCallable count }
    requires small { (i r : ℕ) → i < n → F.post count i r → r ≤ most }
    requires fits { n * most < 2 ^ 32 }
    ensures value { (g : ℕ → ℕ) → ((i r : ℕ) → i < n → F.post count i r → r ≡ g i) → result ≡ sum_below n g }
    ensures bound { result ≤ n * most }
{
    let mut sum = 0;
    for i in 0..n {
        sum += count(i);
    }
    sum
}

fn moves_in(frame: &Frame) -> usize
    ensures value { result ≡ count_moves (meaning_of frame.now) }
    ensures bound { result ≤ 32768 }
{
    total(frame.sizes().states, 512, |from| moves_from(frame, from))
}

fn moves_from(frame: &Frame, from: usize) -> usize
    ensures value { result ≡ moves_of (meaning_of frame.now) from }
    ensures bound { result ≤ 512 }
{
    total(
        frame.sizes().actions,
        64,
        |action| moves_on(frame, from, action),
    )
}

fn moves_on(frame: &Frame, from: usize, action: usize) -> usize
    ensures value { result ≡ moves_on (meaning_of frame.now) from action }
    ensures bound { result ≤ 64 }
{
    total(frame.sizes().states, 1, |to| {
        usize::from(frame.kind(Move { from, action, to }).is_possible())
    })
}

fn lights_in(frame: &Frame) -> usize
    ensures value { result ≡ count_lights (meaning_of frame.now) }
    ensures bound { result ≤ 512 }
{
    total(frame.sizes().states, 8, |state| lights_at(frame, state))
}

fn lights_at(frame: &Frame, state: usize) -> usize
    ensures value { result ≡ lights_of (meaning_of frame.now) state }
    ensures bound { result ≤ 8 }
{
    total(frame.sizes().lamps, 1, |lamp| {
        usize::from(frame.light(LampAt { state, lamp }).is_known())
    })
}
