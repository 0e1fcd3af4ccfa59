// A frame read from its listing.
ghost use Rattle.std.specs.Prelude.{◌≡◌};
ghost use Rattle.frames.specs.Drafts.{drafting};
ghost use Rattle.frames.specs.Frames.{draft_meaning};
ghost use Rattle.listings.specs.Readings.{reading, system_after};
ghost use Rattle.listings.specs.Runs.{verdict_of};
ghost use Rattle.systems.specs.Meaning.{blank, first_sizes};

use crate::parser::parse;
use crate::part::Stage;
use crate::parts::PartParser;
use crate::rejection::Rejection;
use frames::Draft;

// The draft becomes the frame that the text describes. A refused text leaves the draft as it is.
pub fn read(draft: &mut Draft, text: &[u8]) -> Result<(), Rejection>
    ensures answer { result ≡ verdict_of (reading (drafting (blank first_sizes)) text.now) }
    ensures after { draft_meaning draft.new ≡ system_after (reading (drafting (blank first_sizes)) text.now) (draft_meaning draft.old) }
{
    let mut parser = PartParser {
        stage: Stage::SizesNames,
        builder: Draft::new(),
    };
    parse(&mut parser, text)?;
    let PartParser { stage: _, builder } = parser;
    *draft = builder;
    Ok(())
}
