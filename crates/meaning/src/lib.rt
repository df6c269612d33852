// What document 01 means by a chain, a run, a numerator and a verdict: the definitions of specs/, and in proofs/ the
// theorems about them that the other crates cite. No function stands here.
#![tactic(auto)]
