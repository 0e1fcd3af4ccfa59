// What the lines of a map say.
ghost use Rattle.std.specs.Prelude.{◌≡◌};
ghost use Rattle.quotients.specs.Forms.{class_in};

// A state and its class.
#[derive(Clone, Copy)]
pub(crate) struct ClassLine {
    pub(crate) state: usize,
    pub(crate) class: usize,
}

pub(crate) fn class_of(line: &[u8]) -> Option<ClassLine>
    ensures { result ≡ class_in line.now }
{
    let (state, class) = text::cut_at(line, b' ')?;
    Some(ClassLine {
        state: text::number(state)?,
        class: text::number(class)?,
    })
}
