// Both round trips of sentences, as demand 2 of document 00 asks. There is no code here: reading and writing are crates of
// their own, and this one holds the theorems that speak of both (proofs/RoundTrips).
#![tactic(auto)]
