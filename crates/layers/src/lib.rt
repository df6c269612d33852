// Layers: the numbers of all T tuples at once, in the work area that a caller lends. The front T numbers are the first
// layer, the next T the second, and so on.
#![tactic(auto)]

pub mod periods;
pub mod plain;
pub mod power;

// The most states of a model, and the room of its masks, rows and columns.
pub const STATES: usize = 32;

// The numbers of an evaluation: N states, n variables, T tuples, and D.
#[derive(Clone, Copy)]
pub struct Setting {
    pub states: usize,
    pub variables: usize,
    pub tuples: usize,
    pub d: u64,
}
