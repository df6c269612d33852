// The record of a sentence, and what document 01 says of each node: its kind, whether its numbers are in their range, what it wants
// after it, and whether it has a text and of what size. The grammar is in specs/Grammar, the record in specs/Record. Reader and writer
// are crates of their own.
#![tactic(auto)]

ghost use Rattle.std.specs.Prelude.{◌≡◌, ◌≤◌, length};
ghost use Rattle.sentence.specs.Grammar.{kind_of, node_text, out_of_range, wants_of, writable};

use numerals::{BEYOND, number_size};

// The largest top and bottom of a constant, and the last step of a window.
const LARGEST: u32 = 65535;

const LAST_STEP: u32 = 60;

// The longest text, in bytes.
pub const TEXT_BYTES: usize = 400;

// The nodes that a record has room for.
pub const NODES: usize = 64;

// The letters that a prefix has at most.
pub const LETTERS: usize = 4;

// The five comparisons.
#[derive(Clone, Copy, PartialEq, Eq)]
pub enum Relation {
    Less,
    AtMost,
    Equal,
    AtLeast,
    Greater,
}

// The three kinds of node.
#[derive(Clone, Copy, PartialEq, Eq)]
pub enum Kind {
    State,
    Expression,
    Path,
}

// A node. Label 0 is `a`; a variable is its digit, 1..4.
#[derive(Clone, Copy, PartialEq, Eq)]
pub enum Node {
    True,
    Label { label: u8, variable: u8 },
    Not,
    And,
    Compare(Relation),
    Probability,
    Constant { top: u32, bottom: u32 },
    Sum,
    Difference,
    Product,
    Next,
    Until { from: u32, to: u32 },
}

// A sentence: exists[i] says that the letter i + 1 is `E`; places past the count are no part of it.
// (Arrays with a count beside them, since memory is fixed; what works on them takes the slices that the counts say.)
#[derive(Clone, Copy)]
pub struct Sentence {
    pub letters: usize,
    pub exists: [bool; 4],
    pub count: usize,
    pub nodes: [Node; 64],
}

// What follows a node: nothing, one thing, or two of one kind.
#[derive(Clone, Copy, PartialEq, Eq)]
pub enum Wants {
    Nothing,
    One(Kind),
    Two(Kind),
}

impl Node {
    // What the node is: a state formula, an expression or a path.
    pub fn kind(self) -> Kind
        ensures { result ≡ kind_of self }
    {
        match self {
            Node::True | Node::Label { .. } | Node::Not | Node::And | Node::Compare(_) =>
                Kind::State,
            Node::Probability
            | Node::Constant { .. }
            | Node::Sum
            | Node::Difference
            | Node::Product => Kind::Expression,
            Node::Next | Node::Until { .. } => Kind::Path,
        }
    }

    // What follows the node.
    pub fn wants(self) -> Wants
        ensures { result ≡ wants_of self }
    {
        match self {
            Node::True | Node::Label { .. } | Node::Constant { .. } => Wants::Nothing,
            Node::Not | Node::Next => Wants::One(Kind::State),
            Node::Probability => Wants::One(Kind::Path),
            Node::And | Node::Until { .. } => Wants::Two(Kind::State),
            Node::Compare(_) | Node::Sum | Node::Difference | Node::Product => Wants::Two(
                Kind::Expression,
            ),
        }
    }

    // Whether the grammar has a text for the node: its letter, its digit, its numbers. A node without them always has one.
    pub fn has_text(self) -> bool
        ensures { result ≡ writable self }
    {
        match self {
            Node::Label { label, variable } => (label < 16) & (1 <= variable) & (variable <= 4),
            Node::Constant { top: a, bottom: b } | Node::Until { from: a, to: b } => (a < BEYOND)
                & (b < BEYOND),
            _ => true,
        }
    }

    // The number of bytes of the node's own text.
    pub fn size(self) -> usize
        ensures { (result ≡ length (node_text self)) × (result ≤ 14) }
    {
        match self {
            Node::Label { .. } => 2,
            Node::Constant { top: a, bottom: b } | Node::Until { from: a, to: b } => number_size(a)
                + number_size(b)
                + 3,
            _ => 1,
        }
    }

    // Whether row 7 applies to the node of a sentence with this many letters: only a node with numbers can be out of its range.
    pub fn is_fault(self, letters: usize) -> bool
        ensures { result ≡ out_of_range letters self }
    {
        match self {
            Node::Label { variable, .. } => letters < variable as usize,
            Node::Constant { top, bottom } => (LARGEST < top) | (bottom == 0) | (LARGEST < bottom),
            Node::Until { from, to } => (to < from) | (LAST_STEP < to),
            _ => false,
        }
    }
}
