// Products, sums and powers that stop above 2^62: of a larger number only that it is larger matters, and it is kept as 2^62 + 1.
#![tactic(auto)]

ghost use Rattle.std.specs.Prelude.{◌+◌, ◌*◌, ◌^◌, ◌≤◌, ◌≡◌};
ghost use Rattle.meaning.specs.Size.{size_limit, too_large};
ghost use Rattle.capped.specs.Capping.{capped};

// The largest number that the size rule lets through: 2^62.
const LIMIT: u64 = 4611686018427387904;

// What a larger number is kept as.
const CAP: u64 = LIMIT + 1;

// The number, capped.
#[tactic(auto, unfolding(crate::specs::Capping::capped, meaning::specs::Size::too_large))]
fn cap(x: u64) -> u64
    ensures { result ≡ capped x }
{
    if too_large(x) { CAP } else { x }
}

// The product, capped.
#[tactic(auto, unfolding(crate::specs::Capping::capped))]
pub fn times(a: u64, b: u64) -> u64
    ensures { result ≡ capped (a * b) }
{
    cap(a.saturating_mul(b))
}

// The sum of two capped numbers, capped.
pub fn plus(a: u64, b: u64) -> u64
    requires { (a ≤ size_limit + 1) × (b ≤ size_limit + 1) }
    ensures { result ≡ capped (a + b) }
{
    cap(a + b)
}

// The power, capped.
pub fn power(base: u64, exponent: u64) -> u64
    ensures { result ≡ capped (base ^ exponent) }
{
    let mut r: u64 = 1;
    for _ in 0..exponent {
        r = times(r, base);
    }
    r
}

// Whether the number is above 2^62.
#[tactic(auto, unfolding(meaning::specs::Size::too_large))]
pub fn too_large(x: u64) -> bool
    ensures { result ≡ too_large x }
{
    LIMIT < x
}
