// A list of nodes that is to be written: whether it is a thing of the grammar, how long its text is, and whether a node of it is out
// of its range.
#![tactic(auto)]

ghost use Rattle.std.specs.Prelude.{◌≤◌, ◌*◌, [], ◌∷◌, ◌≡◌, length, MatchOption};
ghost use Rattle.sentence.specs.Grammar.{body_text, some_out_of_range};
ghost use Rattle.sentence_survey.specs.Surveys.{Fits, Unfit};

use sentence::{Kind, Node, Wants};

// What follows the thing of this kind that stands at the front of a list of nodes. Each call has a smaller rest of the list.
// (`Body::read` goes the same way over a text: a trait for both, with its laws, would be longer than the lines that they share.)
pub fn nest(nodes: &[Node], kind: Kind) -> Option<&[Node]>
    ensures { MatchOption result (Unfit (kind ∷ []) nodes.now) (λ rest. Fits (kind ∷ []) nodes.now rest.now) }
{
    let (node, rest) = nodes.split_first()?;
    if node.kind() != kind || !node.has_text() {
        return None;
    }
    match node.wants() {
        Wants::Nothing => Some(rest),
        Wants::One(wanted) => nest(rest, wanted),
        Wants::Two(wanted) => nest(nest(rest, wanted)?, wanted),
    }
}

// The length of the text of a list of nodes.
pub fn text_size(nodes: &[Node]) -> usize
    requires { length nodes.now ≤ 64 }
    ensures size { result ≡ length (body_text nodes.now) }
    ensures small { result ≤ 14 * length nodes.now }
{
    let mut size = 0;
    for node in nodes {
        size += node.size();
    }
    size
}

// Whether a node of the list is out of its range, in a sentence with this many letters.
pub fn has_fault(nodes: &[Node], letters: usize) -> bool
    ensures { result ≡ some_out_of_range letters nodes.now }
{
    nodes.iter().any(|node| node.is_fault(letters))
}
