// How many layers a node's evaluation needs at once, and where its nodes end. Of two operands the one that needs more is
// evaluated first, so that no sentence of 64 nodes needs more than seven layers.
// A tree is a place in the record's array: memory is fixed, so no node owns another.
#![tactic(auto)]

ghost use Rattle.std.specs.Prelude.{◌≡◌, ◌+◌, ◌≤◌, ◌<◌};
ghost use Rattle.trees.specs.Need.{paired};
ghost use Rattle.surveys.specs.Surveys.{TreeSurveyed, layers_of_two, Ordered};

use sentence::{Node, Wants};

// Where a node's own nodes end, and the layers that its evaluation needs.
#[derive(Clone, Copy)]
pub struct Extent {
    pub next: usize,
    pub layers: usize,
}

// Where two operands begin, in the order in which they are evaluated, and whether that is not the order in which they stand.
// An enum of the two orders is no plainer: evaluation reads both places whichever it is.
#[derive(Clone, Copy)]
pub struct Order {
    pub first: usize,
    pub then: usize,
    pub crossed: bool,
}

// The need of two operands: the larger, or one more where they are equal.
fn need_of(a: usize, b: usize) -> usize
    requires { a < 1000 }
    ensures { result ≡ paired a b }
{
    if a == b { a + 1 } else { a.max(b) }
}

// What a node with two operands needs, where these need so many layers: an until computes in a third.
fn of_two(node: Node, layers: usize) -> usize
    ensures { result ≡ layers_of_two node layers }
{
    match node {
        Node::Until { .. } => layers.max(3),
        _ => layers,
    }
}

// The survey of the node at a place.
fn survey(nodes: &[Node; 64], at: usize) -> Extent
    requires { at ≤ 64 }
    ensures { TreeSurveyed nodes.now at result }
{
    if 64 <= at {
        return Extent {
            next: at,
            layers: 1,
        };
    }
    let node = nodes[at];
    match node.wants() {
        Wants::Nothing => Extent {
            next: at + 1,
            layers: 1,
        },
        Wants::One(_) => survey(nodes, at + 1),
        Wants::Two(_) => {
            let first = survey(nodes, at + 1);
            let second = survey(nodes, first.next);
            let both = need_of(first.layers, second.layers);
            Extent {
                next: second.next,
                layers: of_two(node, both),
            }
        }
    }
}

// The order of the two operands at a place: the one that needs more layers first, of equal ones the one that stands first.
pub fn order_of(nodes: &[Node; 64], at: usize) -> Order
    requires { at ≤ 64 }
    ensures { Ordered nodes.now at result }
{
    let one = survey(nodes, at);
    let two = survey(nodes, one.next);
    if two.layers <= one.layers {
        return Order {
            first: at,
            then: one.next,
            crossed: false,
        };
    }
    Order {
        first: one.next,
        then: at,
        crossed: true,
    }
}
