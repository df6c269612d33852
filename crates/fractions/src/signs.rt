// Signed numerators: their coding in the work area, and cross products.
ghost use Rattle.std.specs.Prelude.{◌≡◌, pos, ◌*ℤ◌};
ghost use Rattle.fractions.specs.Codes.{coded, decoded, Small, CrossFits};

// Codes from 2^63 on stand for negative numerators.
const UPPER: u64 = 9223372036854775808;

// A cross product: a numerator times the other's denominator.
pub(crate) fn cross(a: i64, d: u64) -> i64
    requires { CrossFits a d }
    ensures { result ≡ a *ℤ pos d }
{
    a * (d as i64)
}

// The code of a numerator.
pub(crate) fn code(x: i64) -> u64
    requires { Small x }
    ensures { result ≡ coded x }
{
    if x < 0 {
        UPPER + x.unsigned_abs()
    } else {
        x as u64
    }
}

// The numerator of a code.
pub(crate) fn decode(x: u64) -> i64
    ensures { result ≡ decoded x }
{
    if x < UPPER {
        x as i64
    } else {
        -((x - UPPER) as i64)
    }
}
