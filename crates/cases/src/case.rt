// A case, and the calls that tighten its frame.
ghost use Rattle.std.specs.Prelude.{◌≡◌};
ghost use Rattle.cases.specs.Tightenings.{move_answer, lamp_answer};
ghost use Rattle.frames.specs.Frames.{meaning_of, draft_meaning};
ghost use Rattle.systems.specs.Edits.{after};
ghost use Rattle.systems.specs.Meaning.{with_move, with_light};
ghost use Rattle.systems.specs.Words.{shown};
ghost use Rattle.systems.specs.declared.kinds.Kind.TheVariants.{Absent, Certain};

use frames::{Draft, Frame};
use systems::{Kind, LampAt, Move, Refusal, Setting, System};

// A frame opened over a controller, which is any system and is only asked.
#[derive(Drop)]
pub struct Case<C> {
    pub(crate) frame: Frame,
    pub(crate) controller: C,
}

impl<C: System> Case<C> {
    // Never refuses; the draft is used up.
    pub fn open(draft: Draft, controller: C) -> Case<C>
        ensures frame { meaning_of result.frame ≡ draft_meaning draft }
        ensures controller { result.controller ≡ controller }
    {
        Case {
            frame: draft.into_frame(),
            controller,
        }
    }

    // The frame as it stands.
    pub fn frame(&self) -> &Frame
        ensures { result.now ≡ self.now.frame }
    {
        &self.frame
    }

    // Makes an optional move certain.
    pub fn confirm(&mut self, at: Move) -> Result<(), Refusal>
        ensures answer { result ≡ move_answer (meaning_of self.old.frame) at.from at.action at.to }
        ensures after { meaning_of self.new.frame ≡ after result (with_move (meaning_of self.old.frame) at.from at.action at.to Certain) (meaning_of self.old.frame) }
        ensures controller { self.new.controller ≡ self.old.controller }
    {
        tighten(&mut self.frame, at, Kind::Certain)
    }

    // Makes an optional move absent, and touches no other.
    pub fn strike(&mut self, at: Move) -> Result<(), Refusal>
        ensures answer { result ≡ move_answer (meaning_of self.old.frame) at.from at.action at.to }
        ensures after { meaning_of self.new.frame ≡ after result (with_move (meaning_of self.old.frame) at.from at.action at.to Absent) (meaning_of self.old.frame) }
        ensures controller { self.new.controller ≡ self.old.controller }
    {
        tighten(&mut self.frame, at, Kind::Absent)
    }

    // Turns an unknown lamp of a state on or off.
    pub fn decide(&mut self, at: LampAt, setting: Setting) -> Result<(), Refusal>
        ensures answer { result ≡ lamp_answer (meaning_of self.old.frame) at.state at.lamp }
        ensures after { meaning_of self.new.frame ≡ after result (with_light (meaning_of self.old.frame) at.state at.lamp (shown setting)) (meaning_of self.old.frame) }
        ensures controller { self.new.controller ≡ self.old.controller }
    {
        self.frame.sizes().check_lamp(at)?;
        if self.frame.light(at).is_known() {
            return Err(Refusal::NotUnknown);
        }
        self.frame.set_light(at, setting.into());
        Ok(())
    }
}

// Gives an optional move of a frame another kind.
fn tighten(frame: &mut Frame, at: Move, kind: Kind) -> Result<(), Refusal>
    ensures answer { result ≡ move_answer (meaning_of frame.old) at.from at.action at.to }
    ensures after { meaning_of frame.new ≡ after result (with_move (meaning_of frame.old) at.from at.action at.to kind) (meaning_of frame.old) }
{
    frame.sizes().check_move(at)?;
    if !frame.kind(at).is_optional() {
        return Err(Refusal::NotOptional);
    }
    frame.set_move(at, kind);
    Ok(())
}
