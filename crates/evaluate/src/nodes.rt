// The nodes of a sentence, evaluated: three functions for the three kinds, which call each other with the node count
// falling. Each evaluates the node at a place, with its own nodes, into the front layer of the work area, and returns the
// place after them.
ghost use Rattle.std.specs.Prelude.{◌≡◌};
ghost use Rattle.sentence.specs.declared.Kind.TheVariants.{State, Expression, Path};
ghost use Rattle.evaluate.specs.Evaluation.{Ready, BothReady, CombinationReady, Done, BothDone, CombinationDone};

use crate::Valued;
use fractions::Operation;
use fractions::codes::{combine, compare, constant};
use layers::plain::{always, both, label, negated, swap};
use path_steps::{Evaluation, next_within, until_within};
use sentence::{Kind, Node};
use surveys::order_of;

// A state formula: its truth at all tuples. Unspecified for other nodes.
#[cycle(nodes)]
pub fn state_formula(over: &Evaluation<'_>, at: usize, work: &mut [u64]) -> usize
    requires { Ready State over.now at work.old }
    ensures { Done State over.now at work.new result 1 }
{
    let g = over.setting;
    match over.nodes[at] {
        Node::True => {
            always(g.tuples, work);
            at + 1
        }
        Node::Label {
            label: l,
            variable: i,
        } => {
            label(over.masks, l, i, g, work);
            at + 1
        }
        Node::Not => {
            let next = state_formula(over, at + 1, work);
            negated(g.tuples, work);
            next
        }
        Node::And => {
            let (_, second) = operands(over, Kind::State, at + 1, work);
            both(g.tuples, work);
            second.next
        }
        Node::Compare(relation) => {
            let (first, second) = operands(over, Kind::Expression, at + 1, work);
            compare(relation, first.bottom, second.bottom, g.tuples, work);
            second.next
        }
        _ => at,
    }
}

// An expression: the code of its numerator at all tuples, and its denominator. Unspecified for other nodes.
#[cycle(nodes)]
fn expression(over: &Evaluation<'_>, at: usize, work: &mut [u64]) -> Valued
    requires { Ready Expression over.now at work.old }
    ensures { Done Expression over.now at work.new result.next result.bottom }
{
    match over.nodes[at] {
        Node::Probability => path(over, at + 1, work),
        Node::Constant { top, bottom } => {
            constant(top as u64, over.setting.tuples, work);
            Valued {
                next: at + 1,
                bottom: bottom as u64,
            }
        }
        Node::Sum => combined(over, Operation::Sum, at + 1, work),
        Node::Difference => combined(over, Operation::Difference, at + 1, work),
        Node::Product => combined(over, Operation::Product, at + 1, work),
        _ => nothing(at),
    }
}

// A path: its numerator at all tuples, and its denominator. Unspecified for other nodes.
#[cycle(nodes)]
pub fn path(over: &Evaluation<'_>, at: usize, work: &mut [u64]) -> Valued
    requires { Ready Path over.now at work.old }
    ensures { Done Path over.now at work.new result.next result.bottom }
{
    match over.nodes[at] {
        Node::Next => {
            let next = state_formula(over, at + 1, work);
            let bottom = next_within(over, at, next, work);
            Valued { next, bottom }
        }
        Node::Until { from, to } => {
            let (_, second) = operands(over, Kind::State, at + 1, work);
            let next = second.next;
            let bottom = until_within(over, from, to, at, next, work);
            Valued { next, bottom }
        }
        _ => nothing(at),
    }
}

// What is returned for a node of another kind: the place itself, and 1.
fn nothing(at: usize) -> Valued
    ensures { (result.next ≡ at) × (result.bottom ≡ 1) }
{
    Valued {
        next: at,
        bottom: 1,
    }
}

// A tree of a kind; a state formula's denominator is 1.
#[cycle(nodes)]
fn tree(over: &Evaluation<'_>, kind: Kind, at: usize, work: &mut [u64]) -> Valued
    requires { Ready kind over.now at work.old }
    ensures { Done kind over.now at work.new result.next result.bottom }
{
    match kind {
        Kind::State => Valued {
            next: state_formula(over, at, work),
            bottom: 1,
        },
        Kind::Expression => expression(over, at, work),
        Kind::Path => path(over, at, work),
    }
}

// Two trees of a kind, the one that needs more layers first; the first one's numbers in the front layer, the other's in the next.
#[cycle(nodes)]
fn operands(over: &Evaluation<'_>, kind: Kind, at: usize, work: &mut [u64]) -> (Valued, Valued)
    requires { BothReady kind over.now at work.old }
    ensures { BothDone kind over.now at work.new result.1.next result.0.bottom result.1.bottom }
{
    let tuples = over.setting.tuples;
    let order = order_of(over.nodes, at);
    let one = tree(over, kind, order.first, work);
    let other = tree(over, kind, order.then, &mut work[tuples..]);
    if order.crossed {
        swap(tuples, work);
        return (other, one);
    }
    (one, other)
}

// Two expressions and what an operation makes of them.
#[cycle(nodes)]
fn combined(over: &Evaluation<'_>, op: Operation, at: usize, work: &mut [u64]) -> Valued
    requires { CombinationReady op over.now at work.old }
    ensures { CombinationDone op over.now at work.new result.next result.bottom }
{
    let (first, second) = operands(over, Kind::Expression, at, work);
    combine(op, first.bottom, second.bottom, over.setting.tuples, work);
    Valued {
        next: second.next,
        bottom: first.bottom * second.bottom,
    }
}
