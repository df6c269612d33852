// The numerator of an until at all tuples: by steps left, one joint step and one choice a layer.
#![tactic(auto)]

ghost use Rattle.std.specs.Prelude.{◌≡◌, ◌+◌, ◌≤◌, length, get_or};
ghost use Rattle.layers.specs.Layers.{WrittenAt};
ghost use Rattle.untils.specs.Untils.{choice, choice_at, TurnFits, Turned, UntilFits, UntilTaken, FromFirst, UntilRepeated};

use layers::periods::repeat;
use row_sums::rows::Rows;
use steps::joint_step;

// What an until takes: the runs whose match is in the window k1..k2. The runs of one step weigh d for each of the `count` variables that
// move.
#[derive(Clone, Copy)]
pub struct Window {
    pub k1: usize,
    pub k2: usize,
    pub d: u64,
    pub count: usize,
}

// What an until has at one tuple: all runs where the window is open and the second formula is met; else the number
// that the step gave, where the first is met.
fn chosen(opened: bool, all: u64, first: u64, second: u64, number: u64) -> u64
    ensures { result ≡ choice opened all first second number }
{
    if opened & (second != 0) {
        all
    } else if first == 0 {
        0
    } else {
        number
    }
}

// The choice at all tuples, in the third layer.
fn choose(opened: bool, all: u64, tuples: usize, work: &mut [u64])
    requires { tuples + tuples + tuples ≤ length work.old }
    ensures { WrittenAt (tuples + tuples) tuples (choice_at opened all tuples work.old)
        work.old work.new }
{
    for k in 0..tuples {
        work[tuples + tuples + k] = chosen(
            opened,
            all,
            work[k],
            work[tuples + k],
            work[tuples + tuples + k],
        );
    }
}

// Copies `count` numbers from one place to another.
fn copy(count: usize, from: usize, to: usize, work: &mut [u64])
    requires { (from + count ≤ length work.old) × (to + count ≤ length work.old) }
    ensures { WrittenAt to count (λ k. get_or work.old (from + k) 0) work.old work.new }
{
    work.copy_within(from..from + count, to);
}

// One layer more: a step of the third layer, then the choice. Six parameters: a struct of them would be made at each turn of `until` and
// taken apart here, which is no plainer.
fn turn(rows: &Rows, moving: &[bool], opened: bool, all: u64, tuples: usize, work: &mut [u64])
    requires { TurnFits rows.now.weights rows.now.states (length moving.now) moving.now tuples work.old }
    ensures { Turned rows.now.weights rows.now.states (length moving.now) moving.now tuples opened all work.old work.new }
{
    joint_step(rows, moving, tuples, &mut work[tuples + tuples..]);
    choose(opened, all, tuples, work);
}

// The numerator of until at all tuples, by runs of the variables that move. The front layer holds the truth of the first formula, the
// second that of the second. The third counts, by steps left, the weight of the runs taken: with none left, where the second formula is
// met; with one more, by a joint step and the choice. At last it is copied to the front.
fn until(rows: &Rows, moving: &[bool], window: Window, tuples: usize, work: &mut [u64])
    requires { UntilFits rows.now.weights rows.now.states (length moving.now) moving.now window.count tuples
        window.d window.k1 window.k2 work.old }
    ensures { UntilTaken rows.now.weights rows.now.states (length moving.now) moving.now tuples window.d window.k1 window.k2
        work.old work.new }
{
    copy(tuples, tuples, tuples + tuples, work);
    let mut all: u64 = 1;
    for moment in (0..window.k2).rev() {
        all *= window.d.pow(window.count as u32);
        turn(rows, moving, window.k1 <= moment, all, tuples, work);
    }
    copy(tuples, tuples + tuples, 0, work);
}

// How many variables stand before the first that moves: all if none does.
fn before_first(moving: &[bool]) -> usize
    ensures { FromFirst moving.now result }
{
    moving
        .iter()
        .position(|moves| *moves)
        .unwrap_or(moving.len())
}

// The numerator of until at all tuples, where no formula looks at the variables before the first that moves: it is found at the tuples in
// which these are in state 0, which come first, and repeated.
pub fn until_repeated(rows: &Rows, moving: &[bool], window: Window, tuples: usize, work: &mut [u64])
    requires { UntilFits rows.now.weights rows.now.states (length moving.now) moving.now window.count tuples
        window.d window.k1 window.k2 work.old }
    ensures { UntilRepeated rows.now.weights rows.now.states (length moving.now) moving.now tuples window.d window.k1 window.k2
        work.old work.new }
{
    let first = before_first(moving);
    let last = &moving[first..];
    let few = rows.states().pow(last.len() as u32);
    copy(few, tuples, few, work);
    until(rows, last, window, few, work);
    repeat(few, tuples, work);
}
