// Merge: the model of a file, its states put together by a grouping, written as a file. What a grouping is and what the merged
// model is stands in specs/Groups of the crate `groups`; the call's rows and what it writes in specs/Contract.
#![tactic(auto)]

ghost use Rattle.std.specs.Prelude.{◌≡◌, true, length};
ghost use Rattle.refusal.specs.Answers.{Writes};
ghost use Rattle.model.specs.Layout.{file_of};
ghost use Rattle.model.specs.Rules.{fields_right, rows_right};
ghost use Rattle.groups.specs.Groups.{merged_model};
ghost use Rattle.merge.specs.Contract.{group_rows, MergeEnsures};

use chain::filled_rows;
use groups::alike::states_alike;
use groups::grouping::{group_count, grouping_right};
use model::Model;
use model_reader::read_model;
use model_writer::write_model;
use refusal::Refusal;
use totals::merged::model_of_groups;
use totals::totals::totals_of;

// Merge, of the model of an accepted file: rows 12, 13 and 14, then the merged model's file.
fn merge_model(m: &Model, grouping: &[u8], out: &mut [u8]) -> Result<usize, Refusal>
    requires { (fields_right m.now ≡ true) × (rows_right m.now ≡ true) }
    ensures { Writes (group_rows m.now grouping.now (length out.old))
        (file_of (merged_model m.now grouping.now)) out.old out.new result }
{
    let n = m.n as usize;
    if !grouping_right(grouping, n) {
        return Err(Refusal::Grouping);
    }
    let count = group_count(grouping);
    let rows = filled_rows(m);
    let totals = totals_of(&rows, grouping, n);
    if !states_alike(&m.masks, &totals, grouping, count, n) {
        return Err(Refusal::Alike);
    }
    let merged = model_of_groups(m, &totals, grouping, count);
    write_model(&merged, out)
}

// Merge: the file of the merged model at the front of the output, or the smallest number of a row that applies.
pub fn merge(file: &[u8], grouping: &[u8], out: &mut [u8]) -> Result<usize, Refusal>
    ensures { MergeEnsures file.now grouping.now out.old out.new result }
{
    let model = read_model(file)?;
    merge_model(&model, grouping, out)
}
