// Sums, tests and tables over the numbers below n (specs/Below), entries and bits (specs/Entries), texts as bytes (specs/Ascii): the
// definitions that the layers above are written in, and the laws about them that their proofs cite.
#![tactic(auto)]
