// How a map of states to classes is made, one state at a time.
ghost use Rattle.std.specs.Prelude.{◌≡◌, ◌≤◌, MatchResult, Ok, Err};
ghost use Rattle.sets.specs.Sets.{width};
ghost use Rattle.systems.specs.Edits.{after};
ghost use Rattle.quotients.specs.Maps.{fresh, count_answer, name_answer, named_as};
ghost use Rattle.quotients.specs.Progress.{map_of};

use crate::forms::ClassLine;
use crate::map::ClassMap;
use folds::Classes;
use sets::WIDTH;
use systems::Refusal;

impl ClassMap {
    // So many classes, every state in class 0, and none named.
    pub(crate) fn blank(count: usize) -> ClassMap
        requires some { 1 ≤ count }
        requires few { count ≤ width }
        ensures { map_of result ≡ fresh count }
    {
        ClassMap {
            count,
            classes: [None; 256],
        }
    }

    // The same, if a frame has room for so many classes.
    pub(crate) fn check(count: usize) -> Result<ClassMap, Refusal>
        ensures { MatchResult result (λ m. (map_of m ≡ fresh count) × (count_answer count ≡ Ok tt)) (λ e. count_answer count ≡ Err e) }
    {
        if count == 0 || count > WIDTH {
            return Err(Refusal::States);
        }
        Ok(ClassMap::blank(count))
    }

    // Puts a state that is not named yet into a class, in a system of so many states.
    pub(crate) fn name(&mut self, states: usize, line: ClassLine) -> Result<(), Refusal>
        requires { states ≤ 256 }
        ensures answer { result ≡ name_answer (map_of self.old) states line.state line.class }
        ensures after { map_of self.new ≡ after result (named_as (map_of self.old) line.state line.class) (map_of self.old) }
    {
        if line.state >= states || line.class >= self.count {
            return Err(Refusal::NoState);
        }
        if self.classes[line.state].is_some() {
            return Err(Refusal::Repeated);
        }
        self.classes[line.state] = Some(line.class as u8);
        Ok(())
    }

    // The map as a fold takes it.
    pub(crate) fn to_classes(&self) -> Classes
        ensures { result.of ≡ (map_of self.now).classes }
    {
        let mut of = [0; 256];
        for (state, class) in self.classes.iter().enumerate() {
            of[state] = class.unwrap_or(0);
        }
        Classes { of }
    }
}
