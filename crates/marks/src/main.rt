// marks: reads the listing of a frame and then formulas, one to a line, and prints the mark of every
// frame state by every formula, or the number of a refusal and its line.
#![tactic(auto)]

use cases::Case;
use frames::{Draft, Frame};
use questions::Questions;
use std::io;
use std::io::{Read, Write};
use systems::System;

fn main(rt: HostRuntime) -> io::Result<()> {
    let mut text = Vec::new(rt.alloc());
    rt.stdin().read_to_end(&mut text)?;
    let mut questions = Questions::new();
    match listings::parse(&mut questions, text.as_slice()) {
        Ok(()) => print_marks(&rt, questions, text.as_slice()),
        Err(rejection) => println!(rt; "{rejection}"),
    }
}

// The formulas are the last lines of the text.
fn print_marks(rt: &HostRuntime, questions: Questions, text: &[u8]) -> io::Result<()> {
    let lines = text.iter().filter(|b| **b == b'\n').count();
    let before = lines.saturating_sub(questions.count);
    // Marks ask nothing of a controller, so the smallest system stands in.
    let case = Case::open(questions.draft, Draft::new().into_frame());
    println!(rt; "state mark formula")?;
    for formula in text.split(|b| *b == b'\n').take(lines).skip(before) {
        print_formula(rt, &case, formula)?;
    }
    Ok(())
}

// A line for each state of the frame.
fn print_formula(rt: &HostRuntime, case: &Case<Frame>, formula: &[u8]) -> io::Result<()> {
    let Ok(sets) = case.sets(formula) else {
        return Ok(());
    };
    let mut out = Vec::new(rt.alloc());
    for state in 0..case.frame().sizes().states {
        let mark = marking::mark_at(sets, state);
        let head = format!(in rt.alloc(); "{state} {mark} ")?;
        out.extend_from_slice(head.as_bytes())?;
        out.extend_from_slice(formula)?;
        out.push(b'\n')?;
    }
    rt.stdout().write_all(out.as_slice())
}
