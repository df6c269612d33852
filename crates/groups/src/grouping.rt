// The grouping: one byte a state. Its numbers are to be 0..M−1, each used: row 12 of document 01's table.
ghost use Rattle.std.specs.Prelude.{◌≡◌, ◌<◌, ◌≤◌, length};
ghost use Rattle.counting.specs.Below.{every_below};
ghost use Rattle.groups.specs.Groups.{group_of, group_count, is_used, grouping_right};
ghost use Rattle.groups.specs.Working.{FirstIn};

use block::byte_at;

// The group of a state.
pub fn group_of(grouping: &[u8], s: usize) -> usize
    ensures { (result ≡ group_of grouping.now s) × (result < 256) }
{
    usize::from(byte_at(grouping, s))
}

// M: one more than the largest number of the grouping.
pub fn group_count(grouping: &[u8]) -> usize
    ensures { (result ≡ group_count grouping.now) × (result ≤ 256) }
{
    let mut count = 0;
    for g in grouping {
        count = count.max(usize::from(*g) + 1);
    }
    count
}

// The first state of a group, if some state has it.
pub fn first_of(grouping: &[u8], g: usize) -> Option<usize>
    ensures { FirstIn (group_of grouping.now) g (length grouping.now) result }
{
    grouping.iter().position(|x| usize::from(*x) == g)
}

// Whether some state has the group g.
fn is_used(grouping: &[u8], g: usize) -> bool
    ensures { result ≡ is_used grouping.now g }
{
    first_of(grouping, g).is_some()
}

// Whether every group below a number is used.
fn all_used(grouping: &[u8], count: usize) -> bool
    ensures { result ≡ every_below count (is_used grouping.now) }
{
    for g in 0..count {
        if !is_used(grouping, g) {
            return false;
        }
    }
    true
}

// Whether the grouping's length is N and its numbers are exactly 0..M−1, each used.
pub fn grouping_right(grouping: &[u8], n: usize) -> bool
    ensures { result ≡ grouping_right n grouping.now }
{
    let whole = grouping.len() == n;
    whole & all_used(grouping, group_count(grouping))
}
