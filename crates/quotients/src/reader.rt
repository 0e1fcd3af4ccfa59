// The quotient that a text describes.
ghost use Rattle.std.specs.Prelude.{◌≡◌};
ghost use Rattle.folds.specs.Folds.{fold_meaning};
ghost use Rattle.frames.specs.Frames.{draft_meaning};
ghost use Rattle.listings.specs.Runs.{verdict_of};
ghost use Rattle.quotients.specs.Progress.{map_of};
ghost use Rattle.quotients.specs.Quotients.{reading_into, quotient_after, Folded, Faithful};
ghost use Rattle.tables.specs.Tables.{making_of};

use crate::map::ClassMap;
use crate::parser::QuotientParser;
use folds::Fold;
use frames::Draft;
use listings::Rejection;
use systems::{LightEntry, MoveEntry};
use tables::Table;

// The draft becomes the fold of the controller by the map that the text describes, which the
// controller refines. A refused text leaves the draft as it is. The controller is written into the
// two lists, whose entries may hold anything before; a list of 2,048 entries is long enough.
#[tactic(auto, using(crate::proofs::Outcomes::text_refused, crate::proofs::Outcomes::text_taken))]
pub fn quotient(
    text: &[u8],
    moves: &mut [MoveEntry],
    lights: &mut [LightEntry],
    draft: &mut Draft,
) -> Result<(), Rejection>
    ensures answer { result ≡ verdict_of (reading_into moves.old lights.old text.now) }
    ensures after { draft_meaning draft.new ≡ quotient_after (reading_into moves.old lights.old text.now) (draft_meaning draft.old) }
    ensures faithful { Faithful (reading_into moves.old lights.old text.now) (draft_meaning draft.new) }
{
    let mut parser = QuotientParser::new(moves, lights);
    listings::parse(&mut parser, text)?;
    fold_into(draft, &parser.table, &parser.map);
    Ok(())
}

// The draft becomes the fold of the table's system. There are classes, at most as many as a frame
// has states, and states, so nothing is refused.
fn fold_into(draft: &mut Draft, table: &Table, map: &ClassMap)
    ensures after { draft_meaning draft.new ≡ fold_meaning (making_of table.now).system (map_of map.now).classes map.now.count }
    ensures folded { Folded (making_of table.now).system (map_of map.now).classes map.now.count (draft_meaning draft.new) }
{
    let fold = Fold::new(table.read(), map.to_classes(), map.count);
    draft.load(&fold).unwrap();
}
