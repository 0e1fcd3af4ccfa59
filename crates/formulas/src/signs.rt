// What the bytes at a place of a text begin.
ghost use Rattle.std.specs.Prelude.{◌≡◌, ◌≤◌, length, slice_index};
ghost use Rattle.formulas.specs.Signs.{variable_of, leaf_of, prefix_of, binary_of, starts, letter_of};
ghost use Rattle.formulas.specs.Texts.{prefix_signs};

use calculus::{Binary, Leaf, Prefix, Variable};

#[derive(Clone, Copy)]
pub(crate) enum Start {
    Atom(Leaf),
    Operator(Prefix),
    // An opening bracket, before two formulas with a sign between them.
    Open,
}

// The byte at a place, and 0 past the end of the text: no formula has a 0.
pub(crate) fn byte(text: &[u8], at: usize) -> u8
    ensures { result ≡ slice_index text.now at }
{
    text.get(at).copied().unwrap_or(0)
}

fn variable(sign: u8) -> Option<Variable>
    ensures { result ≡ variable_of sign }
{
    match sign {
        b'X' => Some(Variable::X),
        b'Y' => Some(Variable::Y),
        b'Z' => Some(Variable::Z),
        _ => None,
    }
}

// The number of a letter among the eight from `first` on.
fn letter(sign: u8, first: u8) -> Option<usize>
    ensures { result ≡ letter_of first sign }
{
    if sign >= first && sign - first < 8 {
        Some(usize::from(sign - first))
    } else {
        None
    }
}

fn leaf(sign: u8) -> Option<Leaf>
    ensures { result ≡ leaf_of sign }
{
    match sign {
        b'T' => Some(Leaf::True),
        b'F' => Some(Leaf::False),
        _ => letter(sign, b'p')
            .map(Leaf::Lamp)
            .or_else(|| variable(sign).map(Leaf::Var)),
    }
}

fn prefix(first: u8, second: u8, third: u8) -> Option<Prefix>
    ensures { result ≡ prefix_of first second third }
{
    match (first, third) {
        (b'!', _) => Some(Prefix::Not),
        (b'<', b'>') => letter(second, b'a').map(Prefix::Diamond),
        (b'[', b']') => letter(second, b'a').map(Prefix::Box),
        (b'm', b'.') => variable(second).map(Prefix::Least),
        (b'n', b'.') => variable(second).map(Prefix::Greatest),
        _ => None,
    }
}

pub(crate) fn binary(sign: u8) -> Option<Binary>
    ensures { result ≡ binary_of sign }
{
    match sign {
        b'&' => Some(Binary::And),
        b'|' => Some(Binary::Or),
        _ => None,
    }
}

// How many bytes a prefix takes.
pub(crate) fn width(p: Prefix) -> usize
    ensures { result ≡ length (prefix_signs p) }
{
    if matches!(p, Prefix::Not) { 1 } else { 3 }
}

// The sign that begins at a place.
pub(crate) fn begins(text: &[u8], at: usize) -> Option<Start>
    requires { at ≤ 128 }
    ensures { result ≡ starts text.now at }
{
    let first = byte(text, at);
    if first == b'(' {
        return Some(Start::Open);
    }
    if let Some(l) = leaf(first) {
        return Some(Start::Atom(l));
    }
    prefix(first, byte(text, at + 1), byte(text, at + 2)).map(Start::Operator)
}
