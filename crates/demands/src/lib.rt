// The three demands of document 00, said of what the calls ensure (specs/Demands), and their proofs. There is no code here: what
// is said follows from the contracts of the calls.
#![tactic(auto)]
