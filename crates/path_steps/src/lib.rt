// A path from the truth of its formulas: its numerators at all tuples and its denominator. Which variables step is found from its nodes.
// A path is its places in the record's array: memory is fixed, so no node owns another.
#![tactic(auto)]

ghost use Rattle.path_steps.specs.Within.{NextFits, NextTaken, WindowFits, WindowTaken};

use layers::{STATES, Setting};
use names::{how_many, names};
use row_sums::rows::Rows;
use sentence::Node;
use steps::joint_step;
use untils::{Window, until_repeated};

// What evaluation is over: the nodes of a sentence's record, the numbers, and the labels and rows of the chain's states.
#[derive(Clone, Copy)]
pub struct Evaluation<'a> {
    pub nodes: &'a [Node; 64],
    pub setting: Setting,
    pub masks: &'a [u16; STATES],
    pub rows: &'a [[u16; STATES]; STATES],
}

// The numerator of next at all tuples, where the front layer holds the truth of its formula, and the denominator, which is returned. Its
// nodes stand at the places `at`..`end`, and only the variables that they name step.
pub fn next_within(over: &Evaluation<'_>, at: usize, end: usize, work: &mut [u64]) -> u64
    requires { NextFits over.now.nodes.now over.now.setting over.now.rows.now at end work.old }
    ensures { NextTaken over.now.nodes.now over.now.setting over.now.rows.now at end work.old work.new result }
{
    let g = over.setting;
    let named = names(over.nodes, at, end);
    let v = how_many(named, g.variables);
    let rows = Rows::new(over.rows, g.states);
    joint_step(&rows, &named[..g.variables], g.tuples, work);
    g.d.pow(v as u32)
}

// The same of until with a window, where the first two layers hold the truth of its formulas. Six parameters: a struct of the window or of
// the places would be made at the one call and taken apart here, which is no plainer.
pub fn until_within(
    over: &Evaluation<'_>,
    from: u32,
    to: u32,
    at: usize,
    end: usize,
    work: &mut [u64],
) -> u64
    requires { WindowFits over.now.nodes.now over.now.setting over.now.rows.now from to at end work.old }
    ensures { WindowTaken over.now.nodes.now over.now.setting over.now.rows.now from to at end work.old work.new result }
{
    let g = over.setting;
    let moving = names(over.nodes, at, end);
    let v = how_many(moving, g.variables);
    let k2 = to as usize;
    let window = Window {
        k1: from as usize,
        k2,
        d: g.d,
        count: v,
    };
    let rows = Rows::new(over.rows, g.states);
    until_repeated(&rows, &moving[..g.variables], window, g.tuples, work);
    g.d.pow((v * k2) as u32)
}
