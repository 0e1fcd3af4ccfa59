// A draft: a frame that is being made, with a place for every move and light. Its calls test what
// they are given and answer the first refusal that applies, and a refused call changes nothing. A
// draft is moved where it goes: what takes one up leaves none behind.
ghost use Rattle.std.specs.Prelude.{◌≡◌};
ghost use Rattle.systems.specs.Meaning.{blank, first_sizes};
ghost use Rattle.frames.specs.Drafts.{drafting};

use crate::frame::Frame;
use sets::WIDTH;
use systems::{Bounds, Builder, LampAt, Modality, Move, Refusal, Setting, Sizes, System};

#[derive(Drop)]
pub struct Draft {
    pub(crate) frame: Frame,
}

impl Draft {
    ghost use Rattle.frames.specs.Frames.{draft_meaning};

    // One state, no actions and no lamps.
    pub fn new() -> Draft
        ensures { draft_meaning result ≡ blank first_sizes }
    {
        let sizes = Sizes {
            states: 1,
            actions: 0,
            lamps: 0,
            start: 0,
        };
        Draft {
            frame: Frame::blank(Bounds { sizes }),
        }
    }

    // The frame as it stands.
    pub fn frame(&self) -> &Frame
        ensures { result.now ≡ self.now.frame }
    {
        &self.frame
    }

    // The frame, with the draft used up.
    pub fn into_frame(self) -> Frame
        ensures { result ≡ self.frame }
    {
        let Draft { frame } = self;
        frame
    }
}

impl Builder for Draft {
    ghost use Rattle.frames.specs.Frames.{draft_meaning};

    ghost making = { λ d. drafting (draft_meaning d) };

    fn size(&mut self, sizes: Sizes) -> Result<(), Refusal> {
        self.frame = Frame::blank(Bounds::check(sizes)?);
        Ok(())
    }

    fn draw(&mut self, at: Move, modality: Modality) -> Result<(), Refusal> {
        self.frame.bounds.sizes.check_move(at)?;
        if self.frame.kind(at).is_possible() {
            return Err(Refusal::Repeated);
        }
        self.frame.set_move(at, modality.into());
        Ok(())
    }

    fn light(&mut self, at: LampAt, setting: Setting) -> Result<(), Refusal> {
        self.frame.bounds.sizes.check_lamp(at)?;
        if self.frame.light(at).is_known() {
            return Err(Refusal::Repeated);
        }
        self.frame.set_light(at, setting.into());
        Ok(())
    }
}
