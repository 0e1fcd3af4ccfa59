// The reader: a text becomes nodes, one for each formula in it, and a node comes after those of
// its parts.
ghost use Rattle.std.specs.Prelude.{◌≤◌, length, drop, MatchOption};
ghost use Rattle.formulas.specs.Places.{Unread, Unreadable, Stands, Whole};

use crate::node::Node;
use crate::signs::{Start, begins, binary, byte, width};

// Where a formula ends in the text, and its node.
#[derive(Clone, Copy)]
pub(crate) struct Found {
    pub(crate) end: usize,
    pub(crate) root: usize,
}

// Reads the formula that begins at a place, with `count` nodes made before it. A formula has at
// least as many bytes as nodes, so there is always room for the next one.
#[tactic(auto, using(crate::proofs::Reading::steps))]
fn formula(nodes: &mut [Node; 128], count: usize, text: &[u8], place: usize) -> Option<Found>
    requires few { count ≤ place }
    requires within { place ≤ length text.now }
    requires short { length text.now ≤ 128 }
    ensures { MatchOption result (Unread (drop place text.now)) (λ f. Stands nodes.old nodes.new count text.now place f) }
{
    match begins(text, place)? {
        Start::Atom(l) => {
            nodes[count] = Node::Leaf(l);
            Some(Found {
                end: place + 1,
                root: count,
            })
        }
        Start::Operator(p) => {
            let body = formula(nodes, count, text, place + width(p))?;
            let root = body.root + 1;
            nodes[root] = Node::Prefix(p, body.root);
            Some(Found {
                end: body.end,
                root,
            })
        }
        Start::Open => {
            let left = formula(nodes, count, text, place + 1)?;
            let sign = binary(byte(text, left.end))?;
            let right = formula(nodes, left.root + 1, text, left.end + 1)?;
            if byte(text, right.end) != b')' {
                return None;
            }
            let root = right.root + 1;
            nodes[root] = Node::Binary(sign, left.root, right.root);
            Some(Found {
                end: right.end + 1,
                root,
            })
        }
    }
}

// Reads the text as a whole.
#[tactic(auto, using(crate::proofs::Wholes::unreadable, crate::proofs::Wholes::goes_on))]
pub(crate) fn whole(nodes: &mut [Node; 128], text: &[u8]) -> Option<usize>
    requires { length text.now ≤ 128 }
    ensures { MatchOption result (Unreadable text.now) (λ root. Whole nodes.new text.now root) }
{
    let found = formula(nodes, 0, text, 0)?;
    if found.end == text.len() {
        Some(found.root)
    } else {
        None
    }
}
