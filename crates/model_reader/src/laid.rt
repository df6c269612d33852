// Whether a file's bytes stand as the layout has them: the rest of row 4 of document 01's table. The bytes of the fields
// themselves need no second look: what is left are the fixed bytes, and those that are to be zero.
ghost use Rattle.std.specs.Prelude.{◌≡◌, ◌+◌, ◌<◌, ◌≤◌, eqb};
ghost use Rattle.counting.specs.Below.{every_below};
ghost use Rattle.block.specs.Block.{byte_of};
ghost use Rattle.model.specs.Layout.{content_byte, fields_of};
ghost use Rattle.model.specs.Rules.{laid_out};

use crate::AFTER_ROWS;
use block::{BLOCK, block_byte};
use model::{Model, ROWS_END, STATES_PER_BLOCK};

// Whether the `count` bytes from byte `from` of a block on are zero.
fn zeros(file: &[u8], block: usize, from: usize, count: usize) -> bool
    requires { from + count ≤ 510 }
    ensures { result ≡ every_below count (λ k. eqb (byte_of file.now block (from + k)) 0) }
{
    for k in 0..count {
        if block_byte(file, block, from + k) != 0 {
            return false;
        }
    }
    true
}

// Whether block 0 stands as the layout has it: byte 0 is 1, and from byte 72 on all are zero.
fn head_laid(file: &[u8]) -> bool
    ensures { result ≡ every_below 510 (λ j. eqb (byte_of file.now 0 j) (content_byte (fields_of file.now) 0 j)) }
{
    (block_byte(file, 0, 0) == 1) & zeros(file, 0, 72, 438)
}

// Whether block i stands as the layout has it: byte 0 is 2, byte 1 is i, and all are zero from byte 450 on, in block 5
// from the place of state 32 on.
fn row_block_laid(file: &[u8], i: usize) -> bool
    requires { (1 ≤ i) × (i < 6) }
    ensures { result ≡ every_below 510 (λ j. eqb (byte_of file.now i j) (content_byte (fields_of file.now) i j)) }
{
    let marked = (block_byte(file, i, 0) == 2) & (block_byte(file, i, 1) == i as u8);
    if i < 5 {
        marked & zeros(file, i, ROWS_END, AFTER_ROWS)
    } else {
        marked & zeros(file, i, 258, 252)
    }
}

// Whether block i stands as the layout has it.
fn block_laid(file: &[u8], i: usize) -> bool
    requires { i < 6 }
    ensures { result ≡ every_below 510 (λ j. eqb (byte_of file.now i j) (content_byte (fields_of file.now) i j)) }
{
    if i == 0 {
        head_laid(file)
    } else {
        row_block_laid(file, i)
    }
}

// Whether every block stands as the layout has it.
fn blocks_laid(file: &[u8], count: usize) -> bool
    requires { count ≤ 6 }
    ensures { result ≡ every_below count
        (λ i. every_below 510 (λ j. eqb (byte_of file.now i j) (content_byte (fields_of file.now) i j))) }
{
    for i in 0..count {
        if !block_laid(file, i) {
            return false;
        }
    }
    true
}

// Whether row 4 does not apply to a file with the fields m.
pub(crate) fn laid_out(file: &[u8], m: &Model) -> bool
    requires { m.now ≡ fields_of file.now }
    ensures { result ≡ laid_out file.now m.now }
{
    if !m.fields_right() {
        return false;
    }
    let blocks = file.len() / BLOCK;
    let wanted = 1 + (m.n as usize + 6) / STATES_PER_BLOCK;
    if blocks != wanted {
        return false;
    }
    blocks_laid(file, blocks)
}
