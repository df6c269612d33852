// Verdict: the rows of a question, row 1 after them, then the body's truth at every tuple and the descent through the prefix.
#![tactic(auto)]

ghost use Rattle.std.specs.Prelude.{◌≡◌, length};
ghost use Rattle.chain.specs.Of.{chain_of};
ghost use Rattle.question.specs.Contract.{area_needed};
ghost use Rattle.question.specs.Working.{Ready};
ghost use Rattle.verdict.specs.Contract.{VerdictEnsures};
ghost use Rattle.verdict.specs.Working.{Judged};

use chain::filled_rows;
use descent::holds_from;
use evaluate::nodes::state_formula;
use layers::plain::zero;
use path_steps::Evaluation;
use question::{Question, question_of};
use refusal::Refusal;

// Whether the sentence holds on the model: the body's truth at every tuple, in the first layers of the area, then the descent.
fn judged(q: &Question, area: &mut [u64]) -> bool
    requires { Ready q.now.model q.now.sentence ×
        (length area.old ≡ area_needed (chain_of q.now.model) q.now.sentence.letters) }
    ensures { Judged q.now.model q.now.sentence result }
{
    let over = Evaluation {
        nodes: &q.sentence.nodes,
        setting: q.setting(),
        masks: &q.model.masks,
        rows: &filled_rows(&q.model),
    };
    state_formula(&over, 0, area);
    let letters = &q.sentence.exists[..over.setting.variables];
    holds_from(letters, over.setting.states, 0, area)
}

// Verdict: whether the sentence holds on the model, or the smallest number of a row that applies, but 1 only where no other does.
pub fn verdict(file: &[u8], text: &[u8], work: &mut [u64]) -> Result<bool, Refusal>
    ensures { VerdictEnsures file.now text.now work.old result work.new }
{
    let asked = question_of(file, text)?;
    if work.len() < asked.area {
        return Err(Refusal::Area);
    }
    let holds = judged(&asked, &mut work[..asked.area]);
    zero(asked.area, work);
    Ok(holds)
}
