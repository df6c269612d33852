// Read model: the rows of a model file in the order of their numbers, then its fields. The layout, the record and the call's contract
// are those of the crate `model`.
#![tactic(auto)]

mod fields;
mod laid;

ghost use Rattle.std.specs.Prelude.{◌≡◌};
ghost use Rattle.model.specs.Rules.{length_right};
ghost use Rattle.model.specs.Contract.{ReadModelEnsures};

use block::{BLOCK, checks_right};
use fields::fields_of;
use laid::laid_out;
use model::Model;
use refusal::Refusal;

// The longest model file, in bytes.
const LONGEST: usize = 3072;

// The bytes of a block between its rows and its check.
const AFTER_ROWS: usize = 60;

// Whether the length is a multiple of 512 in 512..3,072.
fn length_right(file: &[u8]) -> bool
    ensures { result ≡ length_right file.now }
{
    let length = file.len();
    let whole = length % BLOCK == 0;
    let some = (BLOCK <= length) & (length <= LONGEST);
    whole & some
}

// Read model. Returns the model of a file, or refuses with the smallest number that applies to it.
pub fn read_model(file: &[u8]) -> Result<Model, Refusal>
    ensures { ReadModelEnsures file.now result }
{
    if !length_right(file) {
        return Err(Refusal::Length);
    }
    if !checks_right(file) {
        return Err(Refusal::Check);
    }
    let model = fields_of(file);
    if !laid_out(file, &model) {
        return Err(Refusal::Layout);
    }
    if !model.rows_right() {
        return Err(Refusal::Rows);
    }
    Ok(model)
}
