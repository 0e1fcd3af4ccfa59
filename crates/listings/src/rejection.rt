// Why a text is refused, and at which of its lines, counted from 1; 0 is the text as a whole.
use std::fmt;
use systems::Refusal;

#[derive(Clone, Copy, PartialEq, Eq, Debug)]
pub struct Rejection {
    pub refusal: Refusal,
    pub line: usize,
}

// How the programs print it: a line of names, and one with the refusal's number and the line.
impl fmt::Display for Rejection {
    fn fmt<W: fmt::Write>(&self, f: &mut fmt::Formatter<W>) -> fmt::Result {
        write!(f, "refusal line\n{} {}", u8::from(self.refusal), self.line)
    }
}
