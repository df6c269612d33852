// Layers that are made in place: zeros, and the truth of the formulas that need no step.
ghost use Rattle.std.specs.Prelude.{◌≡◌, ◌+◌, ◌*◌, ◌/◌, ◌%◌, ◌^◌, ◌≤◌, ◌<◌, length};
ghost use Rattle.layers.specs.Layers.{WrittenFront, Swapped, negated_at, both_at, bit_at};
ghost use Rattle.layers.specs.Held.{most_states, most_tuples, LabelReady, LabelDone};

use crate::periods::{bits, repeat};
use crate::power::scaled;
use crate::{STATES, Setting};

// Sets the first numbers to one value.
pub fn fill(value: u64, count: usize, work: &mut [u64])
    requires { count ≤ length work.old }
    ensures { WrittenFront count (λ k. value) work.old work.new }
{
    work[..count].fill(value);
}

// Sets the first numbers to 0: `fill` by a name that says what for, since `fill(0, ..)` is no plainer.
pub fn zero(count: usize, work: &mut [u64])
    requires { count ≤ length work.old }
    ensures { WrittenFront count (λ k. 0) work.old work.new }
{
    fill(0, count, work);
}

// The truth of `true`: 1 at every tuple. `fill` by a name that says what for, since `fill(1, ..)` is no plainer.
pub fn always(tuples: usize, work: &mut [u64])
    requires { tuples ≤ length work.old }
    ensures { WrittenFront tuples (λ k. 1) work.old work.new }
{
    fill(1, tuples, work);
}

// Bit l of a mask.
pub(crate) fn bit_of(mask: u16, l: u8) -> u64
    requires { l < 16 }
    ensures { result ≡ mask / 2 ^ l % 2 }
{
    u64::from((mask >> l) % 2)
}

// The truth of a label: 1 at the tuples where the state of the variable has bit l in its mask. The variable's state
// changes every `stride` tuples, and goes through all states again and again.
fn labelled(masks: &[u16; STATES], l: u8, stride: usize, setting: Setting, work: &mut [u64])
    requires { (l < 16) × (1 ≤ setting.states) × (setting.states ≤ most_states) × (1 ≤ stride) ×
        (setting.states * stride ≤ setting.tuples) × (setting.tuples ≤ most_tuples) × (setting.tuples ≤ length work.old) }
    ensures { WrittenFront setting.tuples (λ k. bit_at masks.now l (k / stride % setting.states)) work.old work.new }
{
    bits(masks, l, setting.states, stride, work);
    repeat(setting.states * stride, setting.tuples, work);
}

// The truth of label l of a variable's state. The variables after it change before it does: its stride is N to their number.
pub fn label(masks: &[u16; STATES], l: u8, variable: u8, setting: Setting, work: &mut [u64])
    requires { LabelReady setting.states setting.variables setting.tuples l variable work.old }
    ensures { LabelDone setting.states setting.variables masks.now l variable work.new }
{
    let later = setting.variables - variable as usize;
    let stride = scaled(1, setting.states as u64, later) as usize;
    labelled(masks, l, stride, setting, work);
}

// Not: 1 where the front layer has 0, and 0 elsewhere.
pub fn negated(tuples: usize, work: &mut [u64])
    requires { tuples ≤ length work.old }
    ensures { WrittenFront tuples (negated_at work.old) work.old work.new }
{
    for k in 0..tuples {
        work[k] = u64::from(work[k] == 0);
    }
}

// And: 0 where the second layer has 0, and the front layer's number elsewhere.
pub fn both(tuples: usize, work: &mut [u64])
    requires { tuples + tuples ≤ length work.old }
    ensures { WrittenFront tuples (both_at tuples work.old) work.old work.new }
{
    for k in 0..tuples {
        work[k] = if work[tuples + k] == 0 { 0 } else { work[k] };
    }
}

// Exchanges the first two layers.
pub fn swap(tuples: usize, work: &mut [u64])
    requires { tuples + tuples ≤ length work.old }
    ensures { Swapped tuples work.old work.new }
{
    let (front, rest) = work.split_at_mut(tuples);
    front.swap_with_slice(&mut rest[..tuples]);
}
