// A frame written as its listing.
ghost use Rattle.std.specs.Prelude.{◌≡◌, ◌<◌, ◌≤◌, length, IfOk};
ghost use Rattle.frames.specs.Frames.{meaning_of, draft_meaning};
ghost use Rattle.listings.specs.Blocks.{moves_on_text, moves_of_text, lights_of_text};
ghost use Rattle.listings.specs.Rooms.{write_answer, write_after};
ghost use Rattle.listings.specs.Texts.{moves_text, lights_text, frame_text, ReadsBack};
ghost use Rattle.listings.specs.Writings.{Writes};
ghost use Rattle.text.specs.Bytes.{put};

use crate::part::{LIGHTS_NAMES, MOVES_NAMES, SIZES_NAMES};
use crate::rooms::room;
use crate::writes::{each, put_light, put_line, put_move, put_sizes};
use frames::{Draft, Frame};
use systems::{LampAt, Move, Refusal, System};
use text::Writer;

// Writes the frame's text at the start of `buffer` and answers its length. A buffer shorter than the
// room is refused and left as it is; bytes after the text stay. Where the text is no longer than a
// paper may be, it reads back as the same frame.
#[tactic(auto, using(crate::proofs::Fitting::frame_fits, crate::proofs::Back::frame_reads_back))]
pub fn write(draft: &Draft, buffer: &mut [u8]) -> Result<usize, Refusal>
    ensures answer { result ≡ write_answer (draft_meaning draft.now) buffer.old }
    ensures after { buffer.new ≡ write_after (draft_meaning draft.now) buffer.old }
    ensures within { IfOk result (λ n. n ≤ length buffer.old) }
    ensures back { ReadsBack (draft_meaning draft.now) }
{
    if buffer.len() < room(draft) {
        return Err(Refusal::Full);
    }
    Ok(put_text(draft.frame(), buffer))
}

// Writes the frame's text at the start of a buffer that has room for it, and answers its length.
fn put_text(frame: &Frame, buffer: &mut [u8]) -> usize
    requires { length (frame_text (meaning_of frame.now)) ≤ length buffer.old }
    ensures after { buffer.new ≡ put buffer.old 0 (frame_text (meaning_of frame.now)) }
    ensures length { result ≡ length (frame_text (meaning_of frame.now)) }
{
    let mut writer = Writer { buffer, at: 0 };
    put_frame(frame, &mut writer);
    writer.at
}

fn put_frame(frame: &Frame, writer: &mut Writer<'_>)
    ensures { Writes writer.old (frame_text (meaning_of frame.now)) writer.new }
{
    put_line(writer, SIZES_NAMES);
    put_sizes(writer, frame.sizes());
    put_line(writer, MOVES_NAMES);
    put_moves(frame, writer);
    put_line(writer, LIGHTS_NAMES);
    put_lights(frame, writer);
}

fn put_moves(frame: &Frame, writer: &mut Writer<'_>)
    ensures { Writes writer.old (moves_text (meaning_of frame.now)) writer.new }
{
    each(
        writer,
        frame.sizes().states,
        |w, from| put_moves_of(frame, w, from),
    );
}

fn put_moves_of(frame: &Frame, writer: &mut Writer<'_>, from: usize)
    ensures { Writes writer.old (moves_of_text (meaning_of frame.now) from) writer.new }
{
    each(
        writer,
        frame.sizes().actions,
        |w, action| put_moves_on(frame, w, from, action),
    );
}

fn put_moves_on(frame: &Frame, writer: &mut Writer<'_>, from: usize, action: usize)
    requires { action < 8 }
    ensures { Writes writer.old (moves_on_text (meaning_of frame.now) from action) writer.new }
{
    each(writer, frame.sizes().states, |w, to| {
        let at = Move { from, action, to };
        put_move(w, at, frame.kind(at));
    });
}

fn put_lights(frame: &Frame, writer: &mut Writer<'_>)
    ensures { Writes writer.old (lights_text (meaning_of frame.now)) writer.new }
{
    each(
        writer,
        frame.sizes().states,
        |w, state| put_lights_of(frame, w, state),
    );
}

fn put_lights_of(frame: &Frame, writer: &mut Writer<'_>, state: usize)
    ensures { Writes writer.old (lights_of_text (meaning_of frame.now) state) writer.new }
{
    each(writer, frame.sizes().lamps, |w, lamp| {
        let at = LampAt { state, lamp };
        put_light(w, at, frame.light(at));
    });
}
