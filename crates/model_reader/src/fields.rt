// The fields as they stand in a file: bytes past its end read as 0. What is read stands in a block, by plain numbers: `block_byte` has them
// so, of which `exchanged_numbers` of `block` is an edit.
ghost use Rattle.std.specs.Prelude.{◌≡◌, ◌+◌, ◌*◌, ◌<◌};
ghost use Rattle.counting.specs.Below.{table};
ghost use Rattle.model.specs.Layout.{two_at, four_at, weight_at, fields_of};

use block::{block_byte, two_of};
use model::{Model, ROW_BYTES, ROWS_FROM, STATES_PER_BLOCK};

// The number of two bytes from byte j of a block.
fn two_at(file: &[u8], block: usize, j: usize) -> u16
    requires { j < 511 }
    ensures { result ≡ two_at file.now block j }
{
    two_of(block_byte(file, block, j), block_byte(file, block, j + 1))
}

// The number of four bytes from byte j of a block.
fn four_at(file: &[u8], block: usize, j: usize) -> u32
    requires { j < 509 }
    ensures { result ≡ four_at file.now block j }
{
    u32::from_le_bytes([
        block_byte(file, block, j),
        block_byte(file, block, j + 1),
        block_byte(file, block, j + 2),
        block_byte(file, block, j + 3),
    ])
}

// The 32 numbers of two bytes that stand in a block from byte `from` on.
fn numbers_at(file: &[u8], block: usize, from: usize) -> [u16; 32]
    requires { from < 449 }
    ensures { result ≡ table 32 (λ k. two_at file.now block (from + 2 * k)) }
{
    let mut numbers = [0u16; 32];
    for k in 0..32 {
        numbers[k] = two_at(file, block, from + 2 * k);
    }
    numbers
}

// The weight matrix: the row of each state, its weight to each state.
fn weights_at(file: &[u8]) -> [[u16; 32]; 32]
    ensures { result ≡ table 32 (λ s. table 32 (weight_at file.now s)) }
{
    let mut rows = [[0u16; 32]; 32];
    for s in 0..32 {
        rows[s] = numbers_at(
            file,
            1 + s / STATES_PER_BLOCK,
            ROWS_FROM + ROW_BYTES * (s % STATES_PER_BLOCK),
        );
    }
    rows
}

// All the fields of a file.
pub(crate) fn fields_of(file: &[u8]) -> Model
    ensures { result ≡ fields_of file.now }
{
    Model {
        n: u32::from(block_byte(file, 0, 1)),
        a: u32::from(block_byte(file, 0, 2)),
        d: four_at(file, 0, 4),
        version: u32::from(block_byte(file, 0, 3)),
        masks: numbers_at(file, 0, 8),
        weights: weights_at(file),
    }
}
