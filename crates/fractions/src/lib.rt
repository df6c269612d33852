// Fractions: expression numerators as i64, with their sign, over the denominators that the size rule bounds; and layers
// of their codes.
#![tactic(auto)]

pub mod codes;
mod signs;

ghost use Rattle.std.specs.Prelude.{◌≡◌};
ghost use Rattle.meaning.specs.Meaning.{related, compared};
ghost use Rattle.trees.specs.Listed.{relation_read};
ghost use Rattle.fractions.specs.Operations.{over, operated, OperandsFit, CrossesFit};

use sentence::Relation;
use signs::cross;

// The three operations on expressions.
#[derive(Clone, Copy)]
pub enum Operation {
    Sum,
    Difference,
    Product,
}

// What to make of two numerators: the numerator of an operation, or the truth of a comparison.
#[derive(Clone, Copy)]
enum Making {
    Operated(Operation),
    Compared(Relation),
}

// The numerator of the sum, the difference or the product of a / d1 and b / d2.
pub(crate) fn operate(op: Operation, a: i64, d1: u64, b: i64, d2: u64) -> i64
    requires { OperandsFit op a d1 b d2 }
    ensures { result ≡ (operated op (over a d1) (over b d2)).top }
{
    match op {
        Operation::Sum => cross(a, d2) + cross(b, d1),
        Operation::Difference => cross(a, d2) - cross(b, d1),
        Operation::Product => a * b,
    }
}

// Whether `a` and `b` stand in the relation.
pub(crate) fn relate(relation: Relation, a: i64, b: i64) -> bool
    ensures { result ≡ related (relation_read relation) a b }
{
    match relation {
        Relation::Less => a < b,
        Relation::AtMost => a <= b,
        Relation::Equal => (a <= b) & (b <= a),
        Relation::AtLeast => a >= b,
        Relation::Greater => a > b,
    }
}

// Whether a / d1 and b / d2 stand in the relation, by their cross products.
pub(crate) fn compare(relation: Relation, a: i64, d1: u64, b: i64, d2: u64) -> bool
    requires { CrossesFit a d1 b d2 }
    ensures { result ≡ compared (relation_read relation) (over a d1) (over b d2) }
{
    relate(relation, cross(a, d2), cross(b, d1))
}
