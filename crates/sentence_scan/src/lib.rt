// Reads the body of a text: is it in the grammar, where does it end, what are its nodes, how many are they, and is one of them out of
// its range? What reads from a text gives what it found at the front, and the rest of the text.
#![tactic(auto)]

ghost use Rattle.std.specs.Prelude.{◌+◌, ◌^◌, ◌<◌, [], ◌∷◌, ◌≡◌, length, MatchOption};
ghost use Rattle.sentence_scan.specs.Working.{no_nodes, keep, IsOperator, NoOperator, IsNode, NoNode, Reads, Stuck};

use numerals::two_numbers;
use sentence::{Kind, NODES, Node, Relation, Wants};

// The nodes of a body that are read so far: the first 64 of them, how many they are, and whether one is out of its range.
#[derive(Clone, Copy)]
pub struct Body {
    pub nodes: [Node; 64],
    pub count: usize,
    pub fault: bool,
}

// The node that is written as this byte alone.
fn operator(byte: u8) -> Option<Node>
    ensures { MatchOption result (NoOperator byte) (IsOperator byte) }
{
    Some(match byte {
        b'T' => Node::True,
        b'!' => Node::Not,
        b'&' => Node::And,
        b'<' => Node::Compare(Relation::Less),
        b'L' => Node::Compare(Relation::AtMost),
        b'=' => Node::Compare(Relation::Equal),
        b'G' => Node::Compare(Relation::AtLeast),
        b'>' => Node::Compare(Relation::Greater),
        b'P' => Node::Probability,
        b'+' => Node::Sum,
        b'-' => Node::Difference,
        b'*' => Node::Product,
        b'X' => Node::Next,
        _ => return None,
    })
}

// Reads what follows a label's letter: a digit 1..4.
fn label(label: u8, text: &[u8]) -> Option<(Node, &[u8])>
    requires { label < 16 }
    ensures { MatchOption result (NoNode ((97 + label) ∷ text.now)) (λ r. IsNode ((97 + label) ∷ text.now) r.0 r.1.now) }
{
    let (digit, rest) = text.split_first()?;
    match digit {
        b'1'..=b'4' => {
            let variable = digit - b'0';
            Some((Node::Label { label, variable }, rest))
        }
        _ => None,
    }
}

// Reads a node, its own text alone.
fn node(text: &[u8]) -> Option<(Node, &[u8])>
    ensures { MatchOption result (NoNode text.now) (λ r. IsNode text.now r.0 r.1.now) }
{
    let (first, rest) = text.split_first()?;
    match first {
        b'a'..=b'p' => label(first - b'a', rest),
        b'#' => {
            let (top, bottom, rest) = two_numbers(rest, b'/', b';')?;
            Some((Node::Constant { top, bottom }, rest))
        }
        b'U' => {
            let (from, to, rest) = two_numbers(rest, b',', b':')?;
            Some((Node::Until { from, to }, rest))
        }
        _ => Some((operator(*first)?, rest)),
    }
}

impl Body {
    // The body with no node.
    pub fn new() -> Body
        ensures { result ≡ no_nodes }
    {
        Body {
            nodes: [Node::True; 64],
            count: 0,
            fault: false,
        }
    }

    // Adds a node, in a sentence with this many letters. Past the 64th it is counted, but not kept.
    fn push(&mut self, node: Node, letters: usize)
        requires { self.old.count + 1 < 2 ^ 64 }
        ensures { self.new ≡ keep letters self.old node }
    {
        if self.count < NODES {
            self.nodes[self.count] = node;
        }
        self.count += 1;
        self.fault |= node.is_fault(letters);
    }

    // Reads a thing of a kind, in a sentence with this many letters, and adds its nodes. Each call has a smaller rest of the text.
    pub fn read<'a>(&mut self, text: &'a [u8], kind: Kind, letters: usize) -> Option<&'a [u8]>
        requires { self.old.count + length text.now < 2 ^ 64 }
        ensures { MatchOption result (Stuck (kind ∷ []) text.now)
            (λ rest. Reads (kind ∷ []) text.now letters self.old self.new rest.now) }
    {
        let (node, rest) = node(text)?;
        if node.kind() != kind {
            return None;
        }
        self.push(node, letters);
        match node.wants() {
            Wants::Nothing => Some(rest),
            Wants::One(wanted) => self.read(rest, wanted, letters),
            Wants::Two(wanted) => {
                let rest = self.read(rest, wanted, letters)?;
                self.read(rest, wanted, letters)
            }
        }
    }
}
