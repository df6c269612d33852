// Write sentence: the text of a record at the front of the output, or the refusal. The contract is in specs/Contract. All
// that can be refused is decided before a byte is written.
#![tactic(auto)]

ghost use Rattle.std.specs.Prelude.{◌+◌, ◌≤◌, ◌++◌, ◌≡◌, length};
ghost use Rattle.sentence.specs.Grammar.{node_text, sentence_text, relation_byte, Writable};
ghost use Rattle.sentence_writer.specs.Contract.{WriteSentenceEnsures};
ghost use Rattle.sentence.specs.Working.{AllWritable};
ghost use Rattle.sentence_writer.specs.Working.{Decision};

use numerals::Text;
use refusal::Refusal;
use sentence::{Kind, LETTERS, NODES, Node, Relation, Sentence, TEXT_BYTES};
use sentence_survey::{has_fault, nest, text_size};

// A comparison's byte. (It is no method of `Relation`, since must-fail/less_as_at_most speaks of it in this crate.)
fn relation_byte(r: Relation) -> u8
    ensures { result ≡ relation_byte r }
{
    match r {
        Relation::Less => b'<',
        Relation::AtMost => b'L',
        Relation::Equal => b'=',
        Relation::AtLeast => b'G',
        Relation::Greater => b'>',
    }
}

// Writes a node's own text.
fn put_node(text: &mut Text, node: Node)
    requires { Writable node × (length text.old + length (node_text node) ≤ 400) }
    ensures { text.new ≡ text.old ++ node_text node }
{
    match node {
        Node::True => text.byte(b'T'),
        Node::Label { label, variable } => {
            text.byte(b'a' + label);
            text.byte(b'0' + variable);
        }
        Node::Not => text.byte(b'!'),
        Node::And => text.byte(b'&'),
        Node::Compare(r) => text.byte(relation_byte(r)),
        Node::Probability => text.byte(b'P'),
        Node::Constant { top, bottom } => text.numbers(b'#', top, b'/', bottom, b';'),
        Node::Sum => text.byte(b'+'),
        Node::Difference => text.byte(b'-'),
        Node::Product => text.byte(b'*'),
        Node::Next => text.byte(b'X'),
        Node::Until { from, to } => text.numbers(b'U', from, b',', to, b':'),
    }
}

// The text of a prefix and a list of nodes.
fn text_of(letters: &[bool], nodes: &[Node]) -> Text
    requires { AllWritable nodes.now × (length (sentence_text letters.now nodes.now) ≤ 400) }
    ensures { result ≡ sentence_text letters.now nodes.now }
{
    let mut text = Text::new();
    for exists in letters {
        text.byte(if *exists { b'E' } else { b'A' });
    }
    text.byte(b'.');
    for node in nodes {
        put_node(&mut text, *node);
    }
    text
}

// The size of a record's text, or the refusal, for an output of `room` bytes; nothing is written yet.
fn decide(s: &Sentence, room: usize) -> Result<usize, Refusal>
    ensures { Decision s.now room result }
{
    let letters = s.letters;
    let count = s.count;
    if NODES < count {
        return Err(Refusal::Grammar);
    }
    if LETTERS < letters {
        return Err(Refusal::Grammar);
    }
    if letters == 0 {
        return Err(Refusal::Grammar);
    }
    let nodes = &s.nodes[..count];
    let rest = nest(nodes, Kind::State).ok_or(Refusal::Grammar)?;
    if !rest.is_empty() {
        return Err(Refusal::Grammar);
    }
    let size = letters + 1 + text_size(nodes);
    if TEXT_BYTES < size {
        return Err(Refusal::Grammar);
    }
    if has_fault(nodes, letters) {
        return Err(Refusal::Range);
    }
    if room < size {
        return Err(Refusal::Room);
    }
    Ok(size)
}

// Write sentence. Writes the text of a record at the front of the output and returns its size, or refuses with the smallest number that
// applies to them, and writes nothing.
pub fn write_sentence(s: &Sentence, out: &mut [u8]) -> Result<usize, Refusal>
    ensures { WriteSentenceEnsures s.now out.old result out.new }
{
    let size = decide(s, out.len())?;
    let text = text_of(&s.exists[..s.letters], &s.nodes[..s.count]);
    out[..size].copy_from_slice(text.bytes());
    Ok(size)
}
