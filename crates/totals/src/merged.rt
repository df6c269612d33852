// The merged model: one state a group, with the mask and the totals of the group's first member.
ghost use Rattle.std.specs.Prelude.{◌≡◌, true, ◌≤◌, length};
ghost use Rattle.counting.specs.Below.{every_below};
ghost use Rattle.model.specs.Layout.{model_of};
ghost use Rattle.groups.specs.Groups.{is_used};
ghost use Rattle.groups.specs.Working.{masks_of_groups, rows_of_groups};

use groups::grouping::first_of;
use model::Model;

// The model of the groups, from the model of the states and their totals: from the count of groups on masks and rows are zero.
pub fn model_of_groups(m: &Model, totals: &[[u16; 32]; 32], grouping: &[u8], count: usize) -> Model
    requires { (length grouping.now ≤ 32) × (count ≤ 32) × (every_below count (is_used grouping.now) ≡ true) }
    ensures { result ≡ model_of count m.now.a m.now.d m.now.version (masks_of_groups m.now.masks grouping.now count)
        (rows_of_groups totals.now grouping.now count) }
{
    let mut masks = [0u16; 32];
    let mut rows = [[0u16; 32]; 32];
    for g in 0..count {
        let s = first_of(grouping, g).unwrap();
        masks[g] = m.masks[s];
        rows[g] = totals[s];
    }
    Model {
        n: count as u32,
        a: m.a,
        d: m.d,
        version: m.version,
        masks,
        weights: rows,
    }
}
