// What the next line is: one of the frame's part, or a formula.
use listings::Stage;

#[derive(Clone, Copy)]
pub enum Phase {
    Part(Stage),
    Formulas,
}
