// The total weight of each state into each group: the rows are lent, and what is returned is an array of arrays by value.
ghost use Rattle.std.specs.Prelude.{◌≡◌, cond, [], ℕ, ◌<◌, ◌≤◌, eqb, get_or};
ghost use Rattle.counting.specs.Below.{sum_below, table};
ghost use Rattle.groups.specs.Groups.{group_of};

use groups::grouping::group_of;

// The total weight of a row into group h, over the n states.
fn total_into(row: &[u16; 32], grouping: &[u8], n: usize, h: usize) -> u32
    requires { n ≤ 32 }
    ensures { result ≡ sum_below n (λ t. cond (eqb (group_of grouping.now t) h) (get_or row.now t 0) 0) }
{
    let mut total = 0;
    for t in 0..n {
        if group_of(grouping, t) == h {
            total += u32::from(row[t]);
        }
    }
    total
}

// A row's total weight into each group. The whole row is no more than 65,535, so each total is a weight again.
fn totals_row(row: &[u16; 32], grouping: &[u8], n: usize) -> [u16; 32]
    requires { (n ≤ 32) × (sum_below n (λ t. get_or row.now t 0) ≤ 65535) }
    ensures { result ≡ table 32
        (λ h. sum_below n (λ t. cond (eqb (group_of grouping.now t) h) (get_or row.now t 0) 0)) }
{
    let mut totals = [0u16; 32];
    for h in 0..32 {
        totals[h] = total_into(row, grouping, n, h) as u16;
    }
    totals
}

// The total weight of each state into each group.
pub fn totals_of(rows: &[[u16; 32]; 32], grouping: &[u8], n: usize) -> [[u16; 32]; 32]
    requires { (n ≤ 32) × ((s : ℕ) → s < 32 → sum_below n (λ t. get_or (get_or rows.now s []) t 0) ≤ 65535) }
    ensures { result ≡ table 32 (λ s. table 32 (λ h. sum_below n (λ t. cond (eqb (group_of grouping.now t) h)
        (get_or (get_or rows.now s []) t 0) 0))) }
{
    let mut totals = [[0u16; 32]; 32];
    for s in 0..32 {
        totals[s] = totals_row(&rows[s], grouping, n);
    }
    totals
}
