// The size rule, refusal 10, over the places of a sentence's record. No number here grows past 2^62 + 1: of a number above 2^62
// only that matters.
// A tree is a place in the record's array: memory is fixed, so no node owns another.
#![tactic(auto)]

ghost use Rattle.std.specs.Prelude.{ℕ, ◌+◌, ◌*◌, ◌^◌, ◌≤◌, ◌<◌, false, ◌≡◌};
ghost use Rattle.meaning.specs.Size.{exceeds as exceeds_rule};
ghost use Rattle.meaning.specs.Tree.{Formula};
ghost use Rattle.trees.specs.Standing.{FormulaAt};
ghost use Rattle.sizes.specs.Sizing.{unmeasured, measured, of_path, of_sum, of_product, of_comparison, of_probability};
ghost use Rattle.capped.specs.Capping.{capped};
ghost use Rattle.sizes.specs.Sizing.{of_none, of_one, of_two, Sizes};

use capped::{plus, power, times, too_large};
use names::{how_many, names};
use sentence::{Node, Wants};

// What is found of a tree: where its nodes end; an expression's d and m, capped; a path's steps; and whether some number of the size
// rule is above 2^62. What a tree of its kind does not have is 0: an enum of the three kinds is no plainer, since each operation on
// two measures would have arms for kinds that its operands cannot have.
#[derive(Clone, Copy)]
struct Measure {
    next: usize,
    d: u64,
    m: u64,
    steps: u32,
    over: bool,
}

// A formula, which has no d, no m and no steps.
fn plain(next: usize, over: bool) -> Measure
    ensures { result ≡ unmeasured next over }
{
    stepped(next, 0, over)
}

// An expression of d and m; `over` is what was found of its parts.
fn judged(next: usize, d: u64, m: u64, over: bool) -> Measure
    ensures { result ≡ measured next d m over }
{
    Measure {
        next,
        d,
        m,
        steps: 0,
        over: over | too_large(d) | too_large(m),
    }
}

// A sum or a difference: d1 × d2 and m1 × d2 + m2 × d1.
fn added(a: Measure, b: Measure) -> Measure
    ensures { result ≡ of_sum a b }
{
    let d = times(a.d, b.d);
    let m = plus(times(a.m, b.d), times(b.m, a.d));
    judged(b.next, d, m, a.over | b.over)
}

// A product: d1 × d2 and m1 × m2.
fn multiplied(a: Measure, b: Measure) -> Measure
    ensures { result ≡ of_product a b }
{
    let d = times(a.d, b.d);
    let m = times(a.m, b.m);
    judged(b.next, d, m, a.over | b.over)
}

// A comparison: its m1 × d2 and m2 × d1.
fn crossed(a: Measure, b: Measure) -> Measure
    ensures { result ≡ of_comparison a b }
{
    let first = times(a.m, b.d);
    let second = times(b.m, a.d);
    plain(
        b.next,
        a.over | b.over | too_large(first) | too_large(second),
    )
}

// A path of so many steps; `over` is what was found of its formulas.
fn stepped(next: usize, steps: u32, over: bool) -> Measure
    ensures { result ≡ of_path next steps over }
{
    Measure {
        next,
        d: 0,
        m: 0,
        steps,
        over,
    }
}

// A constant: d is its bottom, m its top.
fn constant(next: usize, top: u32, bottom: u32) -> Measure
    ensures { result ≡ measured next (capped bottom) (capped top) false }
{
    judged(next, bottom as u64, top as u64, false)
}

// The denominator of a path of so many steps in which v variables occur.
fn denominator(base: u64, v: usize, steps: u32) -> u64
    requires { v ≤ 4 }
    ensures { result ≡ capped (base ^ (v * steps)) }
{
    power(base, (v as u64) * (steps as u64))
}

// What is found of a node that wants nothing. Of other nodes the result means nothing.
fn of_none(node: Node, at: usize) -> Measure
    requires { at < 64 }
    ensures { result ≡ of_none node at }
{
    match node {
        Node::Constant { top, bottom } => constant(at + 1, top, bottom),
        _ => plain(at + 1, false),
    }
}

// What is found of a node that wants two things, from what is found of both. Of other nodes the result means nothing.
fn of_two(node: Node, a: Measure, b: Measure) -> Measure
    ensures { result ≡ of_two node a b }
{
    match node {
        Node::Compare(_) => crossed(a, b),
        Node::Sum | Node::Difference => added(a, b),
        Node::Product => multiplied(a, b),
        Node::Until { to, .. } => stepped(b.next, to, a.over | b.over),
        _ => plain(b.next, a.over | b.over),
    }
}

// The walk over the places of a record, for D = `base` and n variables.
#[derive(Clone, Copy)]
struct Walk<'a> {
    nodes: &'a [Node; 64],
    base: u64,
    n: usize,
    ghost few: { n ≤ 4 },
}

impl Walk<'_> {
    // The probability of the path at a place: its d and m are the path's denominator, for the variables that its nodes name.
    fn probable(&self, at: usize, w: Measure) -> Measure
        requires { (at ≤ w.next) × (w.next ≤ 64) }
        ensures { result ≡ of_probability self.now.nodes.now at w self.now.base self.now.n }
    {
        let v = how_many(names(self.nodes, at, w.next), self.n);
        let d = denominator(self.base, v, w.steps);
        judged(w.next, d, d, w.over)
    }

    // What is found of the node at a place that wants one thing, from what is found of that. Of other nodes the result means nothing.
    fn of_one(&self, at: usize, node: Node, t: Measure) -> Measure
        requires { (at + 1 ≤ t.next) × (t.next ≤ 64) }
        ensures { result ≡ of_one self.now.nodes.now at node t self.now.base self.now.n }
    {
        match node {
            Node::Probability => self.probable(at + 1, t),
            Node::Next => stepped(t.next, 1, t.over),
            _ => t,
        }
    }

    // What is found of the tree at a place, by what its node wants. Where no tree stands only the bounds of `next` hold.
    fn size_at(&self, at: usize) -> Measure
        requires { at ≤ 64 }
        ensures { Sizes self.now.nodes.now at self.now.base self.now.n result }
    {
        if 64 <= at {
            return plain(at, false);
        }
        let node = self.nodes[at];
        match node.wants() {
            Wants::Nothing => of_none(node, at),
            Wants::One(_) => self.of_one(at, node, self.size_at(at + 1)),
            Wants::Two(_) => {
                let first = self.size_at(at + 1);
                let second = self.size_at(first.next);
                of_two(node, first, second)
            }
        }
    }
}

// Whether some number of the size rule is above 2^62, in a sentence of n letters whose record holds a formula from place 0
// on. Unspecified for a record that holds none.
pub fn exceeds(nodes: &[Node; 64], d: u64, n: usize) -> bool
    requires { n ≤ 4 }
    ensures { (f : Formula) (q : ℕ) → FormulaAt nodes.now 0 f q → result ≡ exceeds_rule f d n }
{
    let walk = Walk { nodes, base: d, n };
    walk.size_at(0).over
}
