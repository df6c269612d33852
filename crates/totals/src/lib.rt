// The total weight of each state into each group, and the model of the groups, whose rows such totals are. What the merged model is
// stands in specs/Groups of the crate `groups`.
#![tactic(auto)]

pub mod merged;
pub mod totals;
