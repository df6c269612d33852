// Groupings: whether one is right, and whether the states of each group are alike. What a grouping is, when it is refused and what the
// merged model is stands in specs/Groups.
#![tactic(auto)]

pub mod alike;
pub mod grouping;
