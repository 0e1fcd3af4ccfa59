// A formula among the nodes of a text, and what it is made of.
ghost use Rattle.std.specs.Prelude.{◌≡◌, ◌<◌, slice_index_or};
ghost use Rattle.calculus.specs.declared.syntax.Leaf.TheVariants.{True as Truth};
ghost use Rattle.formulas.specs.declared.node.Node.TheVariants.{Leaf as Sole};
ghost use Rattle.formulas.specs.Sentences.{Formed};

use crate::node::Node;
use calculus::{Binary, Leaf, Prefix};

// The formula that one of a text's nodes stands for: itself, or a part of it.
#[derive(Clone, Copy)]
pub struct Subformula<'a> {
    pub(crate) nodes: &'a [Node; 128],
    pub(crate) at: usize,
    ghost inside: { at < 128 },
    ghost formed: { Formed nodes.now at },
}

// What a formula is made of.
#[derive(Clone, Copy)]
pub enum Shape<'a> {
    Leaf(Leaf),
    Prefix(Prefix, Subformula<'a>),
    Binary(Binary, Subformula<'a>, Subformula<'a>),
}

impl<'a> Subformula<'a> {
    ghost use Rattle.formulas.specs.Shapes.{node_of, Shaped};

    // The parts stand at earlier places, so that a recursion into them ends.
    #[tactic(auto, using(crate::proofs::Tables::prefix_part, crate::proofs::Tables::fork_part))]
    pub fn shape(self) -> Shape<'a>
        ensures node { slice_index_or self.entry.nodes.now self.entry.at (Sole Truth) ≡ node_of result }
        ensures parts { Shaped self.entry result }
    {
        let Subformula { nodes, .. } = self;
        match nodes[self.at] {
            Node::Leaf(l) => Shape::Leaf(l),
            Node::Prefix(p, body) => Shape::Prefix(p, Subformula { nodes, at: body }),
            Node::Binary(o, left, right) => Shape::Binary(
                o,
                Subformula { nodes, at: left },
                Subformula { nodes, at: right },
            ),
        }
    }
}
