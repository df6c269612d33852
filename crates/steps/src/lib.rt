// A joint step of some variables of a layer in place, one after another: for v of them v × N products a tuple, or v times as many
// as a row has weights that are not 0, where each has few. The other variables stay.
#![tactic(auto)]

ghost use Rattle.std.specs.Prelude.{length, ◌*◌};
ghost use Rattle.steps.specs.Columns.{LayerFits, LayerStepped};
ghost use Rattle.steps.specs.Steps.{StepFits, Stepped};

use layers::STATES;
use row_sums::rows::Rows;

// Steps one variable at all tuples. Its state changes every `stride` places, and goes through all states in a block of N times as many:
// each block has `stride` columns.
fn step_variable(rows: &Rows, stride: usize, blocks: usize, layer: &mut [u64])
    requires { LayerFits rows.now.weights rows.now.states stride (blocks * rows.now.states * stride) layer.old }
    ensures { LayerStepped rows.now.weights rows.now.states stride (blocks * rows.now.states * stride) layer.old layer.new }
{
    let states = rows.states();
    let mut column = [0; STATES];
    for block in 0..blocks {
        let start = block * (stride * states);
        for k in 0..stride {
            rows.step_column(stride, start + k, layer, &mut column);
        }
    }
}

// A joint step of the variables that move, the last first. The layer of a function becomes the layer of its step; from a formula's truth
// it is the numerator of next.
pub fn joint_step(rows: &Rows, moving: &[bool], tuples: usize, work: &mut [u64])
    requires { StepFits rows.now.weights rows.now.states (length moving.now) moving.now tuples work.old }
    ensures { Stepped rows.now.weights rows.now.states (length moving.now) moving.now tuples work.old work.new }
{
    let states = rows.states();
    let mut stride = 1;
    let mut blocks = tuples;
    for i in (0..moving.len()).rev() {
        blocks /= states;
        let moves = moving[i];
        if moves {
            step_variable(rows, stride, blocks, work);
        }
        stride *= states;
    }
}
