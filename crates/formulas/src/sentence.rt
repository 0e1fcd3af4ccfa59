// A sentence: a closed formula that was read from a text.
ghost use Rattle.std.specs.Prelude.{◌≡◌, ◌<◌, true, Some, MatchResult, slice_index_or};
ghost use Rattle.calculus.specs.Formula.{Formula, closed};
ghost use Rattle.calculus.specs.declared.syntax.Leaf.TheVariants.{True as Truth};
ghost use Rattle.formulas.specs.declared.node.Node.TheVariants.{Leaf as Sole};
ghost use Rattle.formulas.specs.Nodes.{formula_at};
ghost use Rattle.formulas.specs.Readings.{wrong_length, Accepted, Refused};
ghost use Rattle.formulas.specs.Sentences.{sentence_at};
ghost use Rattle.formulas.specs.Shapes.{formula_of};

use crate::letters::Letters;
use crate::node::Node;
use crate::reader::whole;
use crate::subformula::Subformula;
use calculus::Leaf;
use systems::Refusal;

#[derive(Clone, Copy)]
pub struct Sentence {
    nodes: [Node; 128],
    root: usize,
    ghost inside: { root < 128 },
    ghost closed: { sentence_at nodes root ≡ true },
}

// A formula has 1 to 128 bytes.
fn wrong_length(text: &[u8]) -> bool
    ensures { result ≡ wrong_length text.now }
{
    text.is_empty() || text.len() > 128
}

impl Sentence {
    // Reads a closed formula for a system with so many actions and lamps.
    #[tactic(auto, using(crate::specs::Readings::by_length, crate::specs::Readings::by_form, crate::specs::Readings::by_formula))]
    pub fn read(text: &[u8], actions: usize, lamps: usize) -> Result<Sentence, Refusal>
        ensures { MatchResult result (λ s. (f : Formula) × (formula_at s.nodes s.root ≡ Some f) × Accepted actions lamps text.now f) (λ e. Refused actions lamps text.now e) }
    {
        if wrong_length(text) {
            return Err(Refusal::FormulaLength);
        }
        let mut nodes = [Node::Leaf(Leaf::True); 128];
        let root = whole(&mut nodes, text).ok_or(Refusal::NotFormula)?;
        let formula = Subformula {
            nodes: &nodes,
            at: root,
        };
        formula.judge(Letters { actions, lamps })?;
        Ok(Sentence { nodes, root })
    }

    // The sentence as a formula.
    pub fn formula(&self) -> Subformula<'_>
        ensures nodes { result.nodes.now ≡ self.now.nodes }
        ensures root { result.at ≡ self.now.root }
        ensures stands { formula_at self.now.nodes self.now.root ≡ Some (formula_of result) }
        ensures closed { closed (formula_of result) ≡ true }
    {
        Subformula {
            nodes: &self.nodes,
            at: self.root,
        }
    }

    // The place of the node that stands for the sentence.
    pub fn root(&self) -> usize
        ensures { result ≡ self.now.root }
    {
        self.root
    }

    // The node at a place, and the leaf T where there is none.
    pub fn node(&self, at: usize) -> Node
        ensures { result ≡ slice_index_or self.now.nodes at (Sole Truth) }
    {
        self.nodes
            .get(at)
            .copied()
            .unwrap_or(Node::Leaf(Leaf::True))
    }
}
