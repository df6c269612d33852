// The chain that a model record describes. specs/Of says what it is; here its rows are filled, for verdict, numerator and merge,
// and in proofs/ stand the laws about the chain of an accepted file that the layers above cite.
#![tactic(auto)]

ghost use Rattle.std.specs.Prelude.{◌≡◌, ◌<◌, [], get_or};
ghost use Rattle.counting.specs.Below.{table};
ghost use Rattle.chain.specs.Of.{filled_weight, filled_rows};

use model::Model;

// The row of state s as it stands.
fn row_of(m: &Model, s: usize) -> [u16; 32]
    requires { s < 32 }
    ensures { result ≡ get_or m.now.weights s [] }
{
    m.weights[s]
}

// The row of state s after filling: that of a halted state is weight D to the state itself.
fn filled_row(m: &Model, s: usize) -> [u16; 32]
    requires { (s < 32) × (m.now.d < 65536) }
    ensures { result ≡ table 32 (filled_weight m.now s) }
{
    let row = row_of(m, s);
    if m.is_halted(s) {
        let mut halted = [0u16; 32];
        halted[s] = m.d as u16;
        return halted;
    }
    row
}

// The rows of a model after filling: an all-zero row of a version 1 model is weight D to the state itself.
pub fn filled_rows(m: &Model) -> [[u16; 32]; 32]
    requires { m.now.d < 65536 }
    ensures { result ≡ filled_rows m.now }
{
    let mut filled = [[0u16; 32]; 32];
    for s in 0..32 {
        filled[s] = filled_row(m, s);
    }
    filled
}
