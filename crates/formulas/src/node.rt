// A formula as a list of nodes.
use calculus::{Binary as Connective, Leaf as Atom, Prefix as Operator};

// A node names its parts by their places, which come before its own.
#[derive(Clone, Copy)]
pub enum Node {
    Leaf(Atom),
    Prefix(Operator, usize),
    Binary(Connective, usize, usize),
}
