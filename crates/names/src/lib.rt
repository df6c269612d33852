// Which variables a path names: those of the labels among its nodes, of nested paths too. They are found once for each path.
// A path is its places in the record's array: memory is fixed, so no node owns another.
#![tactic(auto)]

ghost use Rattle.std.specs.Prelude.{◌≡◌, ◌≤◌, take};
ghost use Rattle.std.specs.List.{list_any};
ghost use Rattle.meaning.specs.Named.{count};
ghost use Rattle.names.specs.Names.{mentions, names_between};

use sentence::Node;

// Whether the node is a label of the variable.
fn is_label_of(node: Node, variable: u8) -> bool
    ensures { result ≡ mentions variable node }
{
    matches!(node, Node::Label { variable: other, .. } if variable == other)
}

// Whether a label of the variable is among the nodes. A `for` and no `any`, since must-fail/nodes_passed_over speaks of its places.
fn is_named(nodes: &[Node], variable: u8) -> bool
    ensures { result ≡ list_any (mentions variable) nodes.now }
{
    for at in 0..nodes.len() {
        if is_label_of(nodes[at], variable) {
            return true;
        }
    }
    false
}

// The variables named at the places `from`..`to`: a yes or no for each of the four that a sentence can have.
pub fn names(nodes: &[Node; 64], from: usize, to: usize) -> [bool; 4]
    requires { (from ≤ to) × (to ≤ 64) }
    ensures { result ≡ names_between nodes.now from to }
{
    let among = &nodes[from..to];
    let one = is_named(among, 1);
    let two = is_named(among, 2);
    let three = is_named(among, 3);
    let four = is_named(among, 4);
    [one, two, three, four]
}

// How many of the first n variables they are.
pub fn how_many(those: [bool; 4], n: usize) -> usize
    requires { n ≤ 4 }
    ensures { result ≡ count (take n those) }
{
    those[..n].iter().filter(|named| **named).count()
}
