// The model file of document 01: its record, and what the layout asks of it. The layout is said once, in specs/Layout; the contracts of
// read model and write model are in specs/Contract. Each of the two calls is a crate of its own.
#![tactic(auto)]

pub mod rules;

// Where rows stand in a block: so many states a block, from this byte on, so many bytes a row, up to this byte.
pub const STATES_PER_BLOCK: usize = 7;

pub const ROWS_FROM: usize = 2;

pub const ROW_BYTES: usize = 64;

pub const ROWS_END: usize = 450;

// A model as its file says it: N states, A labels, D, the version, a label mask for each state, and the weight from each
// state (its row) to each (the column). The record can hold what no file can: such a record is refused by write_model.
#[derive(Clone, Copy)]
pub struct Model {
    pub n: u32,
    pub a: u32,
    pub d: u32,
    pub version: u32,
    pub masks: [u16; 32],
    pub weights: [[u16; 32]; 32],
}
