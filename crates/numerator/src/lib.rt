// Numerator: the rows of a question and row 15, row 1 after them, then the path formula's numerators at every tuple, of which one is asked.
#![tactic(auto)]

ghost use Rattle.std.specs.Prelude.{◌≡◌, length};
ghost use Rattle.chain.specs.Of.{chain_of};
ghost use Rattle.question.specs.Contract.{area_needed};
ghost use Rattle.question.specs.Working.{Ready};
ghost use Rattle.numerator.specs.Contract.{NumeratorEnsures};
ghost use Rattle.numerator.specs.Working.{Asked, Right, CountedSo};

use chain::filled_rows;
use evaluate::nodes::path;
use layers::plain::zero;
use path_steps::Evaluation;
use paths::{path_place, tuple_place, tuple_right};
use question::{Question, question_of};
use refusal::Refusal;

// A numerator and its denominator.
#[derive(Clone, Copy)]
pub struct Ratio {
    pub numerator: u64,
    pub denominator: u64,
}

// Whether row 15 does not apply: the tuple has n members, each below N, and there is a path formula with the number.
fn asks_right(q: &Question, tuple: &[u8], number: usize) -> bool
    requires { Ready q.now.model q.now.sentence }
    ensures { Right q.now.model q.now.sentence tuple.now number result }
{
    let at = path_place(&q.sentence.nodes[..q.sentence.count], number);
    tuple_right(tuple, q.sentence.letters, q.model.n as usize) & at.is_some()
}

// The numerator of the path formula with the number at the tuple, and its denominator: the numerators at all tuples are put
// into the first layer of the area.
fn counted(q: &Question, tuple: &[u8], number: usize, area: &mut [u64]) -> Ratio
    requires { Asked q.now.model q.now.sentence tuple.now number ×
        (length area.old ≡ area_needed (chain_of q.now.model) q.now.sentence.letters) }
    ensures { CountedSo q.now.model q.now.sentence tuple.now number result }
{
    let over = Evaluation {
        nodes: &q.sentence.nodes,
        setting: q.setting(),
        masks: &q.model.masks,
        rows: &filled_rows(&q.model),
    };
    let at = path_place(&q.sentence.nodes[..q.sentence.count], number).unwrap();
    let valued = path(&over, at, area);
    let k = tuple_place(tuple, over.setting.states);
    Ratio {
        numerator: area[k],
        denominator: valued.bottom,
    }
}

// Numerator: the numerator and the denominator of a path formula at a tuple, or the smallest number of a row that applies, but 1 only
// where no other does.
pub fn numerator(
    file: &[u8],
    text: &[u8],
    tuple: &[u8],
    number: usize,
    work: &mut [u64],
) -> Result<Ratio, Refusal>
    ensures { NumeratorEnsures file.now text.now tuple.now number work.old result
        work.new }
{
    let asked = question_of(file, text)?;
    if !asks_right(&asked, tuple, number) {
        return Err(Refusal::Asked);
    }
    if work.len() < asked.area {
        return Err(Refusal::Area);
    }
    let ratio = counted(&asked, tuple, number, &mut work[..asked.area]);
    zero(asked.area, work);
    Ok(ratio)
}
