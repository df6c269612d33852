// Layers that repeat: numbers that are the same for a stretch of tuples, and the repetition of the first ones.
ghost use Rattle.std.specs.Prelude.{◌+◌, ◌-◌, ◌*◌, ◌/◌, ◌%◌, ◌≤◌, ◌<◌, length, get_or};
ghost use Rattle.layers.specs.Layers.{WrittenFront, WrittenAt, bit_at};
ghost use Rattle.layers.specs.Held.{most_states, most_tuples};

use crate::STATES;
use crate::plain::bit_of;

// Sets the numbers of a stretch to one value.
pub(crate) fn stretch(value: u64, base: usize, size: usize, work: &mut [u64])
    requires { base + size ≤ length work.old }
    ensures { WrittenAt base size (λ k. value) work.old work.new }
{
    work[base..base + size].fill(value);
}

// Bit l of the mask of each state, for `stride` tuples each.
pub(crate) fn bits(masks: &[u16; STATES], l: u8, states: usize, stride: usize, work: &mut [u64])
    requires { (l < 16) × (states ≤ most_states) × (1 ≤ stride) × (states * stride ≤ most_tuples) ×
        (states * stride ≤ length work.old) }
    ensures { WrittenFront (states * stride) (λ k. bit_at masks.now l (k / stride)) work.old
        work.new }
{
    for s in 0..states {
        stretch(bit_of(masks[s], l), s * stride, stride, work);
    }
}

// Repeats the first `few` numbers, up to `all` of them.
pub fn repeat(few: usize, all: usize, work: &mut [u64])
    requires { (1 ≤ few) × (few ≤ all) × (all ≤ length work.old) }
    ensures { WrittenAt few (all - few) (λ k. get_or work.old (k % few) 0) work.old work.new }
{
    for k in 0..all - few {
        work[few + k] = work[k];
    }
}
