// Why a call says no: of the reasons that hold, the one that stands first here. What the call was
// made on is then as it was.
ghost use Rattle.std.specs.Prelude.{◌≡◌};
ghost use Rattle.systems.specs.Refusals.{number_of};

#[derive(Clone, Copy, PartialEq, Eq, Debug)]
pub enum Refusal {
    // A paper with too many bytes, or a marking run with too few places for its output.
    Length,
    // This is not how a line looks here, or a line is due and there is none.
    Form,
    // No states, or more than such a system can hold.
    States,
    // Nine or more actions, or nine or more lamps.
    Letters,
    // The start is none of the states.
    Start,
    // A number that is too large for a state of that system.
    NoState,
    // A number that is too large for an action, or for a lamp.
    NoLetter,
    // Said before: that move is there, that lamp is lit, that state or pair was named.
    Repeated,
    // Only an optional move is confirmed or struck.
    NotOptional,
    // Only an unknown lamp is decided.
    NotUnknown,
    // A formula without bytes, or with too many.
    FormulaLength,
    // No formula is spelled as this text.
    NotFormula,
    // An action or a lamp in the formula is not one of the frame's.
    ForeignLetter,
    // A variable is free, or negated an odd number of times since its binder.
    Unbound,
    // Binders stand too deep.
    Nesting,
    // An empty controller, or one that counts its actions or lamps otherwise than the frame.
    Mismatch,
    // Not one row to a state of the controller, or a row with a number that is no state.
    Rows,
    // Some joined pair fails a clause of refinement.
    NotRefinement,
    // No place is left: in a list, in a buffer, or for one more formula.
    Full,
}

// The number by which a refusal is printed.
impl From<Refusal> for u8 {
    ghost from_gives = { λ e n. n ≡ number_of e };

    fn from(refusal: Refusal) -> u8 {
        match refusal {
            Refusal::Length => 1,
            Refusal::Form => 2,
            Refusal::States => 3,
            Refusal::Letters => 4,
            Refusal::Start => 5,
            Refusal::NoState => 6,
            Refusal::NoLetter => 7,
            Refusal::Repeated => 8,
            Refusal::NotOptional => 9,
            Refusal::NotUnknown => 10,
            Refusal::FormulaLength => 11,
            Refusal::NotFormula => 12,
            Refusal::ForeignLetter => 13,
            Refusal::Unbound => 14,
            Refusal::Nesting => 15,
            Refusal::Mismatch => 16,
            Refusal::Rows => 17,
            Refusal::NotRefinement => 18,
            Refusal::Full => 19,
        }
    }
}
