// Powers of a small number, within 2^62.
ghost use Rattle.std.specs.Prelude.{◌≡◌, ◌*◌, ◌^◌, ◌≤◌};
ghost use Rattle.meaning.specs.Size.{size_limit};

// x · d^times. A loop and not `pow`, whose exponent is a u32: where there is one state a label may have any number of variables after it.
pub fn scaled(x: u64, d: u64, times: usize) -> u64
    requires { (1 ≤ d) × (x * d ^ times ≤ size_limit) }
    ensures { result ≡ x * d ^ times }
{
    let mut product = x;
    for _ in 0..times {
        product *= d;
    }
    product
}
