// The evaluator: by recursion over a sentence's formula, whose parts stand at earlier places.
ghost use Rattle.std.specs.Prelude.{◌≡◌, Some};
ghost use Rattle.calculus.specs.Formula.{Formula};
ghost use Rattle.formulas.specs.Nodes.{formula_at};
ghost use Rattle.formulas.specs.Shapes.{formula_of};
ghost use Rattle.frames.specs.Frames.{meaning_of};
ghost use Rattle.marking.specs.Evaluated.{Evaluates};
ghost use Rattle.marking.specs.Standing.{ClosedPart};
ghost use Rattle.marking.specs.Values.{ValuesOnly, EvaluatesAt};

use crate::moves::{boxed, diamond};
use crate::signs::{joined, leaf, negated, same};
use calculus::{Environment, Leaf, Prefix};
use formulas::{Sentence, Shape, Subformula};
use frames::Frame;
use sets::Set;

// The necessary and the possible set of a formula. A fixed point is the body's pair at its own
// pair: the body is evaluated again and again, from no state for a least fixed point and from all
// for a greatest, until the pair does not change.
fn evaluate_at(
    formula: Subformula<'_>,
    frame: &Frame,
    values: Environment<(Set, Set)>,
) -> (Set, Set)
    requires closed { ClosedPart (formula_of formula) }
    requires only { ValuesOnly (meaning_of frame.now) values }
    ensures { EvaluatesAt (meaning_of frame.now) (formula_of formula.entry) values result }
{
    match formula.shape() {
        Shape::Leaf(l) => leaf(frame, l, values),
        Shape::Prefix(p, body) => match p {
            Prefix::Not => negated(frame, evaluate_at(body, frame, values)),
            Prefix::Diamond(action) => diamond(frame, action, evaluate_at(body, frame, values)),
            Prefix::Box(action) => boxed(frame, action, evaluate_at(body, frame, values)),
            Prefix::Least(v) | Prefix::Greatest(v) => {
                let start = if matches!(p, Prefix::Greatest(_)) {
                    Leaf::True
                } else {
                    Leaf::False
                };
                let mut pair = leaf(frame, start, values);
                loop {
                    let next = evaluate_at(body, frame, values.with(v, pair));
                    if same(pair, next) {
                        return pair;
                    }
                    pair = next;
                }
            }
        },
        Shape::Binary(o, left, right) => joined(
            frame,
            o,
            evaluate_at(left, frame, values),
            evaluate_at(right, frame, values),
        ),
    }
}

// The necessary and the possible set of a sentence over a frame.
pub fn evaluate(sentence: &Sentence, frame: &Frame) -> (Set, Set)
    ensures { (f : Formula) → formula_at sentence.now.nodes sentence.now.root ≡ Some f → Evaluates (meaning_of frame.now) f result }
{
    evaluate_at(
        sentence.formula(),
        frame,
        Environment::of((sets::empty(), sets::empty())),
    )
}
