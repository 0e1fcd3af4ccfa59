// A part of a paper: three lists, each a line of names and then lines of values. It is read line by
// line into whatever a system is written into.
ghost use Rattle.std.specs.Prelude.{◌≡◌};
ghost use Rattle.systems.specs.Making.{Making};
ghost use Rattle.listings.specs.Forms.{sizes_in, move_in, light_in};
ghost use Rattle.listings.specs.Parts.{step, named, sizes_step, move_step, light_step, stage_after, made_after, may_end};

use crate::forms::{light_of, move_of, sizes_of};
use systems::{Builder, Refusal};

// The lines of names, without their line feeds.
pub const SIZES_NAMES: &[u8] = b"states actions lamps start";

pub const MOVES_NAMES: &[u8] = b"from action to kind";

pub const LIGHTS_NAMES: &[u8] = b"state lamp light";

// What the next line of a part is: the names or the values of its sizes, the names of its moves, a
// move (or the names of its lights), or a light.
#[derive(Clone, Copy, PartialEq, Eq, Debug)]
pub enum Stage {
    SizesNames,
    Sizes,
    MovesNames,
    Moves,
    Lights,
}

impl Stage {
    // Whether a part may end here.
    pub fn may_end(self) -> bool
        ensures { result ≡ may_end self }
    {
        matches!(self, Stage::Lights)
    }
}

// Takes one line of a part, without its line feed, and answers the next stage.
pub fn take_line<B: Builder>(builder: &mut B, stage: Stage, line: &[u8]) -> Result<Stage, Refusal>
    ensures answer { result ≡ stage_after (step stage (B.making builder.old) line.now) }
    ensures after { B.making builder.new ≡ made_after (step stage (B.making builder.old) line.now) (B.making builder.old) }
{
    match stage {
        Stage::SizesNames => expect(line, SIZES_NAMES, Stage::Sizes),
        Stage::Sizes => take_sizes(builder, line),
        Stage::MovesNames => expect(line, MOVES_NAMES, Stage::Moves),
        Stage::Moves if text::same(line, LIGHTS_NAMES) => Ok(Stage::Lights),
        Stage::Moves => take_move(builder, line),
        Stage::Lights => take_light(builder, line),
    }
}

// A line of names leads to the next stage.
fn expect(line: &[u8], names: &[u8], next: Stage) -> Result<Stage, Refusal>
    ensures { (m : Making) → result ≡ stage_after (named names.now line.now next m) }
{
    if text::same(line, names) {
        Ok(next)
    } else {
        Err(Refusal::Form)
    }
}

fn take_sizes<B: Builder>(builder: &mut B, line: &[u8]) -> Result<Stage, Refusal>
    ensures answer { result ≡ stage_after (sizes_step (B.making builder.old) (sizes_in line.now)) }
    ensures after { B.making builder.new ≡ made_after (sizes_step (B.making builder.old) (sizes_in line.now)) (B.making builder.old) }
{
    builder.size(sizes_of(line).ok_or(Refusal::Form)?)?;
    Ok(Stage::MovesNames)
}

fn take_move<B: Builder>(builder: &mut B, line: &[u8]) -> Result<Stage, Refusal>
    ensures answer { result ≡ stage_after (move_step (B.making builder.old) (move_in line.now)) }
    ensures after { B.making builder.new ≡ made_after (move_step (B.making builder.old) (move_in line.now)) (B.making builder.old) }
{
    let entry = move_of(line).ok_or(Refusal::Form)?;
    builder.draw(entry.at, entry.value)?;
    Ok(Stage::Moves)
}

fn take_light<B: Builder>(builder: &mut B, line: &[u8]) -> Result<Stage, Refusal>
    ensures answer { result ≡ stage_after (light_step (B.making builder.old) (light_in line.now)) }
    ensures after { B.making builder.new ≡ made_after (light_step (B.making builder.old) (light_in line.now)) (B.making builder.old) }
{
    let entry = light_of(line).ok_or(Refusal::Form)?;
    builder.light(entry.at, entry.value)?;
    Ok(Stage::Lights)
}
