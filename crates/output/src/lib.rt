// What the programs print, as bytes of their own.
#![tactic(auto)]

ghost use Rattle.std.specs.Prelude.{◌≡◌, IfOk};
ghost use Rattle.frames.specs.Frames.{draft_meaning};
ghost use Rattle.listings.specs.Texts.{frame_text};

use frames::Draft;
use std::alloc::{AllocError, Global};

// The listing of a draft's frame. Only memory can fail.
pub fn listing(alloc: Global, draft: &Draft) -> Result<Vec<u8>, AllocError>
    ensures { IfOk result (λ text. text.items ≡ frame_text (draft_meaning draft.now)) }
{
    let mut text = vec![in alloc; 0u8; listings::room(draft)]?;
    let length = listings::write(draft, &mut text).unwrap();
    text.truncate(length);
    Ok(text)
}
