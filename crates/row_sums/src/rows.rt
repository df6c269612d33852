// The rows of a chain's matrix, with the places of their weights.
ghost use Rattle.std.specs.Prelude.{◌≡◌, ◌≤◌, length, IfSome};
ghost use Rattle.layers.specs.Held.{most_states};
ghost use Rattle.row_sums.specs.Sparse.{Matrix, RowsPaired};
ghost use Rattle.row_sums.specs.Columns.{ColumnIn, ColumnRead, ColumnFits, ColumnStepped};

use crate::{PLACES, dot, dot_named, pair_rows};
use layers::STATES;
use std::marker::Model;

// The rows, and where each has few weights that are not 0, how many pairs of places are enough to name them. A contract sees the matrix
// and the number of states.
#[derive(Drop)]
pub struct Rows {
    weights: [[u16; STATES]; STATES],
    states: usize,
    places: [[u8; PLACES]; STATES],
    pairs: Option<usize>,
}

impl Model for Rows {
    ghost Value = { Matrix };

    ghost view = { λ r. record { weights = r.weights; states = r.states } };

    ghost invariant = { λ r. (r.states ≤ most_states) × IfSome r.pairs (λ pairs. RowsPaired r.weights r.states pairs r.places) };
}

impl Rows {
    // Names the weights of all rows.
    pub fn new(weights: &[[u16; STATES]; STATES], states: usize) -> Self
        requires { states ≤ most_states }
        ensures weights { result.weights ≡ weights.now }
        ensures states { result.states ≡ states }
    {
        let mut places = [[0; PLACES]; STATES];
        let pairs = pair_rows(weights, states, &mut places);
        Rows {
            weights: *weights,
            states,
            places,
            pairs,
        }
    }

    // How many states there are.
    pub fn states(&self) -> usize
        ensures { result ≡ self.now.states }
    {
        self.states
    }

    // Steps one column of a layer: its numbers are copied, then each is the sum of its state's row. Which sums are made is chosen once for
    // the column, not at each state.
    pub fn step_column(
        &self,
        stride: usize,
        at: usize,
        layer: &mut [u64],
        column: &mut [u64; STATES],
    )
        requires { ColumnFits self.now.weights self.now.states stride at layer.old × (length column.old ≡ most_states) }
        ensures { ColumnStepped self.now.weights self.now.states stride at layer.old layer.new × (length column.new ≡ most_states) }
    {
        let states = self.states;
        read_column(states, stride, at, layer, column);
        match self.pairs {
            Some(pairs) => {
                for s in 0..states {
                    layer[at + s * stride] = dot_named(
                        &self.weights[s],
                        &self.places[s],
                        column,
                        pairs,
                    );
                }
            }
            None => {
                for t in 0..states {
                    layer[at + t * stride] = dot(&self.weights[t], column, states);
                }
            }
        }
    }
}

// Reads the numbers of a column.
fn read_column(states: usize, stride: usize, at: usize, layer: &[u64], column: &mut [u64; STATES])
    requires { ColumnIn states stride at layer.now × (length column.old ≡ most_states) }
    ensures { ColumnRead states stride at layer.now column.new }
{
    for s in 0..states {
        column[s] = layer[at + s * stride];
    }
}
