// Evaluation of a sentence's nodes at all tuples at once: every node has a layer of T numbers of the lent work area, a
// state formula its truth, an expression its coded numerator, a path its numerator.
// A tree is a place in the record's array: memory is fixed, so no node owns another.
#![tactic(auto)]

pub mod nodes;

// Where a node's nodes end, and the denominator of its value.
#[derive(Clone, Copy)]
pub struct Valued {
    pub next: usize,
    pub bottom: u64,
}
