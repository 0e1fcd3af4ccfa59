// The most states and moves of a table, and the counts of classes that a fold takes.
use crate::entries::{no_light, no_move, on};
use folds::{Classes, Fold};
use std::process::Abort;
use systems::{Builder, Modality, Refusal, Sizes, System};
use tables::Table;

fn of_states(states: usize) -> Sizes {
    Sizes {
        states,
        actions: 8,
        lamps: 0,
        start: 0,
    }
}

#[test]
fn a_table_has_up_to_256_states(rt: HostRuntime) {
    let mut moves = [no_move(); 1];
    let mut lights = [no_light(); 1];
    let mut table = Table::new(&mut moves, &mut lights);
    assert_eq!(rt; table.size(of_states(257)), Err(Refusal::States));
    assert_eq!(rt; table.size(of_states(256)), Ok(()));
}

// Draws a move from each state on action 0 to the state `to`.
fn draw_to(rt: &impl Abort, table: &mut Table, to: usize) {
    for from in 0..256 {
        assert_eq!(rt; table.draw(on(from, 0, to), Modality::May), Ok(()));
    }
}

#[test]
fn a_table_has_up_to_2048_moves(rt: HostRuntime) {
    let mut moves = [no_move(); 2049];
    let mut lights = [no_light(); 1];
    let mut table = Table::new(&mut moves, &mut lights);
    assert_eq!(rt; table.size(of_states(256)), Ok(()));
    for to in 0..8 {
        draw_to(&rt, &mut table, to);
    }
    assert_eq!(rt;
        table.draw(on(255, 0, 8), Modality::Must),
        Err(Refusal::Full)
    );
}

// How many states the fold of a system of 256 states has.
fn folded_states(classes: Classes, count: usize) -> usize {
    let mut moves = [no_move(); 1];
    let mut lights = [no_light(); 1];
    let mut table = Table::new(&mut moves, &mut lights);
    let _ = table.size(of_states(256));
    let fold = Fold::new(table.finish(), classes, count);
    fold.sizes().states
}

#[test]
fn a_fold_has_up_to_64_classes(rt: HostRuntime) {
    let classes = Classes { of: [0; 256] };
    assert_eq!(rt; folded_states(classes, 0), 0);
    assert_eq!(rt; folded_states(classes, 1), 1);
    assert_eq!(rt; folded_states(classes, 64), 64);
    assert_eq!(rt; folded_states(classes, 65), 0);
}

#[test]
fn each_class_is_below_the_count(rt: HostRuntime) {
    let mut of = [0; 256];
    of[255] = 2;
    assert_eq!(rt; folded_states(Classes { of }, 2), 0);
    assert_eq!(rt; folded_states(Classes { of }, 3), 3);
}
