// Whether no two states of a group differ in mask or in weight into some group: row 13 of document 01's table.
ghost use Rattle.std.specs.Prelude.{◌≡◌, ◌<◌, ◌≤◌, eqb, length, get_or};
ghost use Rattle.counting.specs.Below.{every_below};
ghost use Rattle.groups.specs.Groups.{group_of, member_of};
ghost use Rattle.groups.specs.Working.{pair_alike};

use crate::grouping::{first_of, group_of};

// Whether two rows agree in the first columns.
fn rows_agree(a: &[u16; 32], b: &[u16; 32], count: usize) -> bool
    requires { count ≤ 32 }
    ensures { result ≡ every_below count (λ h. eqb (get_or a.now h 0) (get_or b.now h 0)) }
{
    a[..count] == b[..count]
}

// Whether two states agree in mask and in their totals into the groups below a count.
fn pair_alike(masks: &[u16; 32], totals: &[[u16; 32]; 32], count: usize, s: usize, t: usize) -> bool
    requires { (count ≤ 32) × (s < 32) × (t < 32) }
    ensures { result ≡ pair_alike masks.now totals.now count s t }
{
    (masks[s] == masks[t]) & rows_agree(&totals[s], &totals[t], count)
}

// Whether every state agrees with the first state of its group.
pub fn states_alike(
    masks: &[u16; 32],
    totals: &[[u16; 32]; 32],
    grouping: &[u8],
    count: usize,
    n: usize,
) -> bool
    requires { (count ≤ 32) × (n ≤ 32) × (length grouping.now ≡ n) }
    ensures { result ≡ every_below n (λ s. pair_alike masks.now totals.now count s
        (member_of n grouping.now (group_of grouping.now s))) }
{
    for s in 0..n {
        let first = first_of(grouping, group_of(grouping, s)).unwrap();
        if !pair_alike(masks, totals, count, s, first) {
            return false;
        }
    }
    true
}
