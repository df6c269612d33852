// A question: a model file, a sentence text and a work area. The rows 2 to 11 of document 01, which verdict and numerator
// share, how much of the work area is needed where none of them applies, and the setting that such a pair is evaluated in.
#![tactic(auto)]

ghost use Rattle.std.specs.Prelude.{◌≡◌, ◌^◌, ◌≤◌};
ghost use Rattle.meaning.specs.Lists.{every};
ghost use Rattle.chain.specs.Of.{chain_of};
ghost use Rattle.question.specs.Contract.{label_right, area_needed};
ghost use Rattle.question.specs.Working.{BothRead, Late, QuestionOf, Ready, SettingOf};

use layers::Setting;
use model::Model;
use model_reader::read_model;
use refusal::Refusal;
use sentence::{Node, Sentence};
use sentence_reader::read_sentence;
use sizes::exceeds;

// The most tuples.
const TUPLES: usize = 1024;

// How many numbers of the work area there are to a tuple.
const LAYERS: usize = 8;

// Whether a node's label letter, if it has one, is below A.
fn label_right(node: Node, a: u32) -> bool
    ensures { result ≡ label_right a node }
{
    match node {
        Node::Label { label, .. } => u32::from(label) < a,
        _ => true,
    }
}

// Whether every label letter of the nodes is below A.
fn labels_right(nodes: &[Node], a: u32) -> bool
    ensures { result ≡ every (label_right a) nodes.now }
{
    nodes.iter().all(|node| label_right(*node, a))
}

// T, the number of tuples: N to the power n.
fn tuple_count(states: usize, letters: usize) -> usize
    requires { (states ≤ 32) × (letters ≤ 4) }
    ensures { result ≡ states ^ letters }
{
    states.pow(letters as u32)
}

// The rows 9, 10 and 11, of a model and a sentence that were read.
fn late_rows(m: &Model, s: &Sentence) -> Result<(), Refusal>
    requires { BothRead m.now s.now }
    ensures { Late m.now s.now result }
{
    if !labels_right(&s.nodes[..s.count], m.a) {
        return Err(Refusal::Label);
    }
    if exceeds(&s.nodes, u64::from(m.d), s.letters) {
        return Err(Refusal::Size);
    }
    if TUPLES < tuple_count(m.n as usize, s.letters) {
        return Err(Refusal::Tuples);
    }
    Ok(())
}

// How many numbers of the work area a pair needs to which none of the rows applies: 8 × T.
fn area_needed(m: &Model, s: &Sentence) -> usize
    requires { Ready m.now s.now }
    ensures { result ≡ area_needed (chain_of m.now) s.now.letters }
{
    LAYERS * tuple_count(m.n as usize, s.letters)
}

// A file and a text to which none of the rows 2 to 11 applies: the model, the sentence, and how many numbers of the work area they need.
// That no row applies is said of a file and a text, which a ghost field does not hold: it stays a `requires` (`Ready`).
#[derive(Clone, Copy)]
pub struct Question {
    pub model: Model,
    pub sentence: Sentence,
    pub area: usize,
}

// What a file and a text ask, or the refusal that the rows 2 to 11 give.
pub fn question_of(file: &[u8], text: &[u8]) -> Result<Question, Refusal>
    ensures { QuestionOf file.now text.now result }
{
    let model = read_model(file)?;
    let sentence = read_sentence(text)?;
    late_rows(&model, &sentence)?;
    let area = area_needed(&model, &sentence);
    Ok(Question {
        model,
        sentence,
        area,
    })
}

impl Question {
    // N, n, T and D.
    pub fn setting(&self) -> Setting
        requires { Ready self.now.model self.now.sentence }
        ensures { SettingOf self.now.model self.now.sentence result }
    {
        let states = self.model.n as usize;
        let letters = self.sentence.letters;
        Setting {
            states,
            variables: letters,
            tuples: tuple_count(states, letters),
            d: u64::from(self.model.d),
        }
    }
}
