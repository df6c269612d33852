// What the numerator call is asked about: the path formula with a number, counted from 0 in written order, and a tuple.
#![tactic(auto)]

ghost use Rattle.std.specs.Prelude.{◌≡◌};
ghost use Rattle.trees.specs.Listed.{starts_path};
ghost use Rattle.paths.specs.Places.{PathPlace, TupleReady, TuplePlace};
ghost use Rattle.paths.specs.Tuples.{members_below, tuple_right};

use sentence::Node;

// Whether the node is that of a path formula: a next or an until.
fn starts_path(node: Node) -> bool
    ensures { result ≡ starts_path node }
{
    matches!(node, Node::Next | Node::Until { .. })
}

// The place of the node of the path formula with the number path, counted from 0 in written order; `None` if there is no
// such path formula.
pub fn path_place(nodes: &[Node], path: usize) -> Option<usize>
    ensures { PathPlace nodes.now path result }
{
    let mut before: usize = 0;
    for (at, node) in nodes.iter().enumerate() {
        if starts_path(*node) {
            if before == path {
                return Some(at);
            }
            before += 1;
        }
    }
    None
}

// Whether every member of the tuple is a state: below N.
fn members_below(tuple: &[u8], states: usize) -> bool
    ensures { result ≡ members_below states tuple.now }
{
    tuple.iter().all(|member| (*member as usize) < states)
}

// Whether the tuple is one of the sentence's: as long as there are letters, and every member below N.
pub fn tuple_right(tuple: &[u8], letters: usize, states: usize) -> bool
    ensures { result ≡ tuple_right letters states tuple.now }
{
    tuple.len() == letters && members_below(tuple, states)
}

// The tuple's number among all T tuples: its place in a layer. The first variable counts most.
pub fn tuple_place(tuple: &[u8], states: usize) -> usize
    requires { TupleReady states tuple.now }
    ensures { TuplePlace states tuple.now result }
{
    let mut place: usize = 0;
    for member in tuple {
        place = place * states + *member as usize;
    }
    place
}
