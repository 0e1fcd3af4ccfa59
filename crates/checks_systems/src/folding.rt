// A fold of a small system, and a draft that takes over either.
use crate::entries::{lamp, no_light, no_move, on};
use folds::{Classes, Fold};
use frames::Draft;
use systems::{Builder, Kind, Light, Modality, Refusal, Setting, Sizes, System};
use tables::Table;

// Moves from 0 and from 2 to 2, and a lamp that is on in 2 alone.
fn fill(table: &mut Table) -> Result<(), Refusal> {
    table.size(Sizes {
        states: 3,
        actions: 1,
        lamps: 1,
        start: 0,
    })?;
    table.draw(on(0, 0, 2), Modality::Must)?;
    table.draw(on(2, 0, 2), Modality::Must)?;
    table.light(lamp(0, 0), Setting::Off)?;
    table.light(lamp(1, 0), Setting::Off)?;
    table.light(lamp(2, 0), Setting::On)
}

// 0 and 1 are class 0, and 2 is class 1.
fn pairs() -> Classes {
    let mut of = [0; 256];
    of[2] = 1;
    Classes { of }
}

#[test]
fn a_fold_of_three_states(rt: HostRuntime) {
    let mut moves = [no_move(); 2];
    let mut lights = [no_light(); 3];
    let mut table = Table::new(&mut moves, &mut lights);
    assert_eq!(rt; fill(&mut table), Ok(()));
    let fold = Fold::new(table.finish(), pairs(), 3);
    for from in 0..3 {
        for to in 0..3 {
            assert_eq!(rt; fold.kind(on(from, 0, to)), expected(from, to));
        }
    }
    assert_eq!(rt; fold.light(lamp(0, 0)), Light::Off);
    assert_eq!(rt; fold.light(lamp(1, 0)), Light::On);
    assert_eq!(rt; fold.light(lamp(2, 0)), Light::Unknown);
}

fn expected(from: usize, to: usize) -> Kind {
    match (from, to) {
        (0, 1) => Kind::Optional,
        (1, 1) => Kind::Certain,
        _ => Kind::Absent,
    }
}

// How many states a draft has that takes over a system.
fn loaded<S: System>(system: &S) -> usize {
    let mut draft = Draft::new();
    let _ = draft.load(system);
    draft.frame().sizes().states
}

#[test]
fn a_draft_loads_a_table_and_a_fold(rt: HostRuntime) {
    let mut moves = [no_move(); 2];
    let mut lights = [no_light(); 3];
    let mut table = Table::new(&mut moves, &mut lights);
    assert_eq!(rt; fill(&mut table), Ok(()));
    let listed = table.finish();
    assert_eq!(rt; loaded(&listed), 3);
    let fold = Fold::new(listed, pairs(), 2);
    assert_eq!(rt; loaded(&fold), 2);
}
