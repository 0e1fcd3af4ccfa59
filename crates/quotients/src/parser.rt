// A quotient's text, read line by line into a table and a map.
ghost use Rattle.std.specs.Prelude.{◌≡◌, ◌≤◌, ◌&&◌};
ghost use Rattle.std.specs.Str.{bytes_eq};
ghost use Rattle.listings.specs.Parts.{may_end as part_may_end};
ghost use Rattle.listings.specs.Runs.{next_of};
ghost use Rattle.quotients.specs.Forms.{classes_names, class_in};
ghost use Rattle.quotients.specs.Progress.{progress_of};
ghost use Rattle.quotients.specs.Quotients.{first};
ghost use Rattle.quotients.specs.Steps.{step, part_step, count_step, names_step, class_step, answer_of};
ghost use Rattle.systems.specs.Meaning.{states};
ghost use Rattle.tables.specs.Tables.{making_of};
ghost use Rattle.text.specs.Numbers.{numeral};

use crate::forms::class_of;
use crate::map::ClassMap;
use crate::phase::Phase;
use listings::Stage;
use systems::{LightEntry, MoveEntry, Refusal, System};
use tables::Table;

// The lines of names, without their line feeds.
const CLASSES_NAMES: &[u8] = b"classes";

const MAP_NAMES: &[u8] = b"state class";

#[derive(Drop)]
pub struct QuotientParser<'a> {
    pub phase: Phase,
    pub table: Table<'a>,
    pub map: ClassMap,
}

// How many states the table's system has so far.
fn states_of(table: &Table) -> usize
    ensures value { result ≡ states (making_of table.now).system }
    ensures few { result ≤ 256 }
{
    table.read().sizes().states
}

// Whether the line is the one of names that ends the part.
fn ends_part(stage: Stage, line: &[u8]) -> bool
    ensures { result ≡ (part_may_end stage && bytes_eq line.now classes_names) }
{
    stage.may_end() && text::same(line, CLASSES_NAMES)
}

impl<'a> QuotientParser<'a> {
    // Before the first line: an empty table in two lists, and every state in one class.
    pub fn new(moves: &'a mut [MoveEntry], lights: &'a mut [LightEntry]) -> QuotientParser<'a>
        ensures { progress_of result ≡ first moves.old lights.old }
    {
        QuotientParser {
            phase: Phase::Part(Stage::SizesNames),
            table: Table::new(moves, lights),
            map: ClassMap::blank(1),
        }
    }

    // Takes one line, without its line feed.
    pub(crate) fn take_line(&mut self, line: &[u8]) -> Result<(), Refusal>
        ensures answer { result ≡ answer_of (step (progress_of self.old) line.now) }
        ensures after { progress_of self.new ≡ next_of (step (progress_of self.old) line.now) (progress_of self.old) }
    {
        match self.phase {
            Phase::Part(stage) => self.take_in_part(stage, line),
            Phase::Count => self.take_count(line),
            Phase::MapNames => self.take_names(line),
            Phase::Map => self.take_class(line),
        }
    }

    fn take_in_part(&mut self, stage: Stage, line: &[u8]) -> Result<(), Refusal>
        ensures answer { result ≡ answer_of (part_step stage (progress_of self.old) line.now) }
        ensures after { progress_of self.new ≡ next_of (part_step stage (progress_of self.old) line.now) (progress_of self.old) }
    {
        if ends_part(stage, line) {
            self.phase = Phase::Count;
            return Ok(());
        }
        self.phase = Phase::Part(listings::take_line(&mut self.table, stage, line)?);
        Ok(())
    }

    fn take_count(&mut self, line: &[u8]) -> Result<(), Refusal>
        ensures answer { result ≡ answer_of (count_step (progress_of self.old) (numeral line.now)) }
        ensures after { progress_of self.new ≡ next_of (count_step (progress_of self.old) (numeral line.now)) (progress_of self.old) }
    {
        let count = text::number(line).ok_or(Refusal::Form)?;
        self.map = ClassMap::check(count)?;
        self.phase = Phase::MapNames;
        Ok(())
    }

    fn take_names(&mut self, line: &[u8]) -> Result<(), Refusal>
        ensures answer { result ≡ answer_of (names_step (progress_of self.old) line.now) }
        ensures after { progress_of self.new ≡ next_of (names_step (progress_of self.old) line.now) (progress_of self.old) }
    {
        if !text::same(line, MAP_NAMES) {
            return Err(Refusal::Form);
        }
        self.phase = Phase::Map;
        Ok(())
    }

    fn take_class(&mut self, line: &[u8]) -> Result<(), Refusal>
        ensures answer { result ≡ answer_of (class_step (progress_of self.old) (class_in line.now)) }
        ensures after { progress_of self.new ≡ next_of (class_step (progress_of self.old) (class_in line.now)) (progress_of self.old) }
    {
        let line = class_of(line).ok_or(Refusal::Form)?;
        self.map.name(states_of(&self.table), line)
    }
}
