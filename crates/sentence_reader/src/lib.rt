// Read sentence: the prefix and the nodes of a text, or the refusal. The contract is in specs/Contract. The text is read once: the
// nodes are kept as they are read, and counted past the 64th, so that 7 goes before 8.
#![tactic(auto)]

ghost use Rattle.std.specs.Prelude.{◌<◌, ◌≤◌, ◌≡◌, length, MatchOption};
ghost use Rattle.sentence_reader.specs.Contract.{ReadSentenceEnsures};
ghost use Rattle.sentence_scan.specs.Working.{no_nodes};
ghost use Rattle.sentence_reader.specs.Working.{no_letters, one_letter, IsPrefix, NoPrefix, IsSentence, NoSentence};

use refusal::Refusal;
use sentence::{Kind, LETTERS, NODES, Sentence, TEXT_BYTES};
use sentence_scan::Body;

// The letters of a prefix that are read so far: exists[i] says that the letter i + 1 is `E`.
#[derive(Clone, Copy)]
pub struct Prefix {
    pub letters: usize,
    pub exists: [bool; 4],
}

impl Prefix {
    // The prefix with no letter.
    fn new() -> Prefix
        ensures { result ≡ no_letters }
    {
        Prefix {
            letters: 0,
            exists: [false; 4],
        }
    }

    // The letters with one more, which `exists` says to be `E`.
    fn with(self, exists: bool) -> Prefix
        requires { self.letters < 4 }
        ensures { result ≡ one_letter self exists }
    {
        let mut all = self;
        all.exists[self.letters] = exists;
        all.letters += 1;
        all
    }

    // Reads the letters after these, and the dot. Each call has a smaller rest of the text.
    fn read(self, text: &[u8]) -> Option<(Prefix, &[u8])>
        requires { self.letters ≤ 4 }
        ensures { MatchOption result (NoPrefix self text.now) (λ r. IsPrefix self text.now r.0 r.1.now) }
    {
        let (first, rest) = text.split_first()?;
        match first {
            b'.' if 0 < self.letters => Some((self, rest)),
            b'A' | b'E' if self.letters < LETTERS => self.with(*first == b'E').read(rest),
            _ => None,
        }
    }
}

// Reads a whole text: its prefix, and its body, which is a state formula, into the lent body, which has no node.
fn parts(text: &[u8], body: &mut Body) -> Option<Prefix>
    requires { (length text.now ≤ 400) × (body.old ≡ no_nodes) }
    ensures { MatchOption result (NoSentence text.now) (λ p. IsSentence text.now p body.new) }
{
    let (prefix, rest) = Prefix::new().read(text)?;
    let rest = body.read(rest, Kind::State, prefix.letters)?;
    if rest.is_empty() { Some(prefix) } else { None }
}

// Read sentence. Returns the prefix and the nodes of a text, in written order, or refuses with the smallest number that applies to it.
pub fn read_sentence(text: &[u8]) -> Result<Sentence, Refusal>
    ensures { ReadSentenceEnsures text.now result }
{
    if TEXT_BYTES < text.len() {
        return Err(Refusal::Grammar);
    }
    let mut body = Body::new();
    let prefix = parts(text, &mut body).ok_or(Refusal::Grammar)?;
    let Prefix { letters, exists } = prefix;
    let Body {
        nodes,
        count,
        fault,
    } = body;
    if fault {
        return Err(Refusal::Range);
    }
    if NODES < count {
        return Err(Refusal::Nodes);
    }
    Ok(Sentence {
        letters,
        exists,
        count,
        nodes,
    })
}
