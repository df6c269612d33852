// Write model: the rows of the record in the order of their numbers, then its file, block by block.
#![tactic(auto)]

ghost use Rattle.std.specs.Prelude.{◌≡◌, true, ◌++◌, ◌+◌, ◌*◌, ◌<◌, ◌≤◌, length, drop};
ghost use Rattle.counting.specs.Below.{table};
ghost use Rattle.refusal.specs.Answers.{at_front};
ghost use Rattle.model.specs.Layout.{byte_of_two, mask_byte, head_byte, weight_byte, row_byte, content_byte, block_bytes, blocks_below};
ghost use Rattle.model.specs.Rules.{fields_right};
ghost use Rattle.model.specs.Contract.{WriteModelEnsures};

use block::{BLOCK, CHECK_HIGH, CHECKED, check_of};
use model::{Model, ROW_BYTES, ROWS_END, ROWS_FROM, STATES_PER_BLOCK};
use refusal::Refusal;

// A byte of a number of two bytes: the low one at 0, the high one after it.
fn byte_of_two(x: u16, k: usize) -> u8
    ensures { result ≡ byte_of_two x k }
{
    let [low, high] = x.to_le_bytes();
    if k < 1 { low } else { high }
}

// A model whose fields are right, as its file has it: N, A and the version are bytes.
#[derive(Clone, Copy)]
struct Page<'a> {
    model: &'a Model,
    ghost right: { fields_right model.now ≡ true },
}

impl<'a> Page<'a> {
    // Byte k of the masks: two bytes a state.
    fn mask_byte(self, k: usize) -> u8
        ensures { result ≡ mask_byte self.entry.model.now k }
    {
        let mask = self.model.masks.get(k / 2).copied().unwrap_or(0);
        byte_of_two(mask, k % 2)
    }

    // Byte j of block 0.
    fn head_byte(self, j: usize) -> u8
        ensures { result ≡ head_byte self.entry.model.now j }
    {
        let [d0, d1, d2, d3] = self.model.d.to_le_bytes();
        match j {
            0 => 1,
            1 => self.model.n as u8,
            2 => self.model.a as u8,
            3 => self.model.version as u8,
            4 => d0,
            5 => d1,
            6 => d2,
            7 => d3,
            _ => self.mask_byte(j - 8),
        }
    }

    // Byte k of the rows of the states from s on: 64 bytes a state, two bytes a weight.
    fn weight_byte(self, s: usize, k: usize) -> u8
        requires { (s ≤ 64) × (k < 448) }
        ensures { result ≡ weight_byte self.entry.model.now s k }
    {
        let weight = match self.model.weights.get(s + k / ROW_BYTES) {
            Some(row) => row[k % ROW_BYTES / 2],
            None => 0,
        };
        byte_of_two(weight, k % 2)
    }

    // Byte j of block i, from 1 on.
    fn row_byte(self, i: usize, j: usize) -> u8
        requires { (1 ≤ i) × (i ≤ 6) }
        ensures { result ≡ row_byte self.entry.model.now i j }
    {
        match j {
            0 => 2,
            1 => i as u8,
            _ => {
                if j < ROWS_END {
                    self.weight_byte(STATES_PER_BLOCK * (i - 1), j - ROWS_FROM)
                } else {
                    0
                }
            }
        }
    }

    // Byte j of block i, before its check.
    fn content_byte(self, i: usize, j: usize) -> u8
        requires { i ≤ 6 }
        ensures { result ≡ content_byte self.entry.model.now i j }
    {
        if i == 0 {
            self.head_byte(j)
        } else {
            self.row_byte(i, j)
        }
    }

    // Writes the first 510 bytes of block i at the front of the slice.
    fn write_content(self, i: usize, out: &mut [u8])
        requires { (i ≤ 6) × (512 ≤ length out.old) }
        ensures { out.new ≡ table 510 (content_byte self.entry.model.now i) ++ drop 510 out.old }
    {
        for j in 0..CHECKED {
            out[j] = self.content_byte(i, j);
        }
    }

    // Writes block i at the front of the slice: its first 510 bytes, then their check.
    fn write_block(self, i: usize, out: &mut [u8])
        requires { (i ≤ 6) × (512 ≤ length out.old) }
        ensures { out.new ≡ at_front (block_bytes self.entry.model.now i) out.old }
    {
        self.write_content(i, out);
        let check = check_of(out, 0);
        let [low, high, ..] = check.to_le_bytes();
        out[CHECKED] = low;
        out[CHECK_HIGH] = high;
    }

    // Writes the blocks below a number, one after another.
    fn write_blocks(self, count: usize, out: &mut [u8])
        requires { (count ≤ 6) × (512 * count ≤ length out.old) }
        ensures { out.new ≡ at_front (blocks_below self.entry.model.now count) out.old }
    {
        for i in 0..count {
            self.write_block(i, &mut out[BLOCK * i..]);
        }
    }
}

// Write model. Writes the file of a model at the front of the output, or refuses with the smallest number that applies.
pub fn write_model(m: &Model, out: &mut [u8]) -> Result<usize, Refusal>
    ensures { WriteModelEnsures m.now out.old out.new result }
{
    if !m.fields_right() {
        return Err(Refusal::Layout);
    }
    if !m.rows_right() {
        return Err(Refusal::Rows);
    }
    let count = 1 + (m.n as usize + 6) / STATES_PER_BLOCK;
    let size = BLOCK * count;
    if out.len() < size {
        return Err(Refusal::Room);
    }
    Page { model: m }.write_blocks(count, out);
    Ok(size)
}
