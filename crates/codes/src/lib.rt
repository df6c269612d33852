// The codes that the exported calls speak in: a writer's answer as one number, a node as three numbers (a tag and what the node
// holds), a letter as one. specs/Codes says which code stands for what.
#![tactic(auto)]

ghost use Rattle.std.specs.Prelude.{◌≡◌};
ghost use Rattle.codes.specs.Codes.{code_of, relation_code, code_of_node, codes_of, letter_codes};
ghost use Rattle.codes.specs.Working.{code_by_number};
ghost use Rattle.codes.specs.Codes.{label_of, comparison_of, node_of, node_of_code, places_of_codes, letters_of};

use refusal::Refusal;
use sentence::{Node, Relation};

// The node that no text spells.
const NO_NODE: Node = Node::Label {
    label: 255,
    variable: 255,
};

// The code of a writer's answer, whose refusal is given by its number: the number of bytes written, or 2^32 plus that number. It takes any
// number, also one that no `Refusal` has.
pub fn written_code(written: Result<usize, u8>) -> u64
    ensures { result ≡ code_by_number written }
{
    match written {
        Ok(size) => size as u64,
        Err(number) => 4294967296 + u64::from(number),
    }
}

// The code of a writer's answer.
pub fn answer_code(written: Result<usize, Refusal>) -> u64
    ensures { result ≡ code_of written }
{
    written_code(written.map_err(u8::from))
}

// The number of a comparison. (These numbers and the tags below are those of include/twolsken.h, so they stand written out here.)
fn relation_code(relation: Relation) -> u32
    ensures { result ≡ relation_code relation }
{
    match relation {
        Relation::Less => 0,
        Relation::AtMost => 1,
        Relation::Equal => 2,
        Relation::AtLeast => 3,
        Relation::Greater => 4,
    }
}

// The code of a node.
fn code_of(node: Node) -> [u32; 3]
    ensures { result ≡ code_of_node node }
{
    match node {
        Node::True => [0, 0, 0],
        Node::Label { label, variable } => [1, u32::from(label), u32::from(variable)],
        Node::Not => [2, 0, 0],
        Node::And => [3, 0, 0],
        Node::Compare(relation) => [4, relation_code(relation), 0],
        Node::Probability => [5, 0, 0],
        Node::Constant { top, bottom } => [6, top, bottom],
        Node::Sum => [7, 0, 0],
        Node::Difference => [8, 0, 0],
        Node::Product => [9, 0, 0],
        Node::Next => [10, 0, 0],
        Node::Until { from, to } => [11, from, to],
    }
}

// The codes of a record's places. A `for` and no `map`, which moves the whole array: read sentence of a short text took twice as long.
pub fn codes_of(nodes: [Node; 64]) -> [[u32; 3]; 64]
    ensures { result ≡ codes_of nodes }
{
    let mut codes = [[0; 3]; 64];
    for i in 0..64 {
        codes[i] = code_of(nodes[i]);
    }
    codes
}

// The codes of a record's letters: 1 for a letter that is `E`, else 0.
pub fn letter_codes(exists: [bool; 4]) -> [u8; 4]
    ensures { result ≡ letter_codes exists }
{
    exists.map(u8::from)
}

// The node of a label and a variable.
fn label_of(label: u32, variable: u32) -> Node
    ensures { result ≡ label_of label variable }
{
    match (u8::try_from(label), u8::try_from(variable)) {
        (Ok(label), Ok(variable)) => Node::Label { label, variable },
        _ => NO_NODE,
    }
}

// The node of a comparison's number.
fn comparison_of(x: u32) -> Node
    ensures { result ≡ comparison_of x }
{
    match x {
        0 => Node::Compare(Relation::Less),
        1 => Node::Compare(Relation::AtMost),
        2 => Node::Compare(Relation::Equal),
        3 => Node::Compare(Relation::AtLeast),
        4 => Node::Compare(Relation::Greater),
        _ => NO_NODE,
    }
}

// The node of a tag and two numbers.
fn node_of(tag: u32, x: u32, y: u32) -> Node
    ensures { result ≡ node_of tag x y }
{
    match tag {
        0 => Node::True,
        1 => label_of(x, y),
        2 => Node::Not,
        3 => Node::And,
        4 => comparison_of(x),
        5 => Node::Probability,
        6 => Node::Constant { top: x, bottom: y },
        7 => Node::Sum,
        8 => Node::Difference,
        9 => Node::Product,
        10 => Node::Next,
        11 => Node::Until { from: x, to: y },
        _ => NO_NODE,
    }
}

// The node that a code stands for.
fn node_of_code(code: [u32; 3]) -> Node
    ensures { result ≡ node_of_code code }
{
    let [tag, x, y] = code;
    node_of(tag, x, y)
}

// The places that the codes stand for. A `for` and no `map`, for the same reason.
pub fn places_of(codes: [[u32; 3]; 64]) -> [Node; 64]
    ensures { result ≡ places_of_codes codes }
{
    let mut nodes = [Node::True; 64];
    for place in 0..64 {
        nodes[place] = node_of_code(codes[place]);
    }
    nodes
}

// The letters that the numbers stand for.
pub fn letters_of(exists: [u8; 4]) -> [bool; 4]
    ensures { result ≡ letters_of exists }
{
    exists.map(|number| number != 0)
}
