// Layers of codes: the numerators of an expression at all tuples, each with its sign.
ghost use Rattle.std.specs.Prelude.{◌≡◌, ◌≤◌, length};
ghost use Rattle.layers.specs.Layers.{WrittenFront};
ghost use Rattle.fractions.specs.Codes.{decoded};
ghost use Rattle.fractions.specs.Operations.{MakingFits, LayersFit, made_code, made_at};
ghost use Rattle.fractions.specs.Operations.{combined_at, compared_at, CombineFits, CompareFits};

use crate::{Making, Operation, signs};
use sentence::Relation;

// What is made of the numerators of two codes: the code of a numerator, or 1 where the comparison holds and 0 elsewhere.
fn made(making: Making, d1: u64, d2: u64, x: u64, y: u64) -> u64
    requires { MakingFits making d1 d2 (decoded x) (decoded y) }
    ensures { result ≡ made_code making d1 d2 (decoded x) (decoded y) }
{
    let a = signs::decode(x);
    let b = signs::decode(y);
    match making {
        Making::Operated(op) => signs::code(crate::operate(op, a, d1, b, d2)),
        Making::Compared(relation) => u64::from(crate::compare(relation, a, d1, b, d2)),
    }
}

// A constant: the code of its top at every tuple, which is the top itself, as it is not negative. `fill` of `layers` by a name that says
// what for, since `fill(top, ..)` is no plainer.
pub fn constant(top: u64, tuples: usize, work: &mut [u64])
    requires { tuples ≤ length work.old }
    ensures { WrittenFront tuples (λ k. top) work.old work.new }
{
    layers::plain::fill(top, tuples, work);
}

// What is made of the front layer and the second, into the front layer.
fn make(making: Making, d1: u64, d2: u64, tuples: usize, work: &mut [u64])
    requires { LayersFit (MakingFits making d1 d2) tuples work.old }
    ensures { WrittenFront tuples (made_at making d1 d2 tuples work.old) work.old work.new }
{
    for k in 0..tuples {
        work[k] = made(making, d1, d2, work[k], work[tuples + k]);
    }
}

// Sum, difference or product of the front layer and the second, into the front layer.
pub fn combine(op: Operation, d1: u64, d2: u64, tuples: usize, work: &mut [u64])
    requires { CombineFits op d1 d2 tuples work.old }
    ensures { WrittenFront tuples (combined_at op d1 d2 tuples work.old) work.old work.new }
{
    make(Making::Operated(op), d1, d2, tuples, work);
}

// The truth of a comparison of the front layer and the second, into the front layer.
pub fn compare(relation: Relation, d1: u64, d2: u64, tuples: usize, work: &mut [u64])
    requires { CompareFits d1 d2 tuples work.old }
    ensures { WrittenFront tuples (compared_at relation d1 d2 tuples work.old) work.old work.new }
{
    make(Making::Compared(relation), d1, d2, tuples, work);
}
