// The blocks of a model file: bytes, numbers of two bytes, and the block's check.
#![tactic(auto)]

ghost use Rattle.std.specs.Prelude.{◌≡◌, ◌+◌, ◌*◌, ◌^◌, ◌<◌, get_or, drop};
ghost use Rattle.block.specs.Block.{byte_of, two, check_of, check_right, checks_right};
ghost use Rattle.block.specs.Working.{Grown};
ghost use Rattle.counting.specs.Below.{sum_below};

// The bytes of a block.
pub const BLOCK: usize = 512;

// The bytes of a block that its check is of; the check stands after them.
pub const CHECKED: usize = 510;

// The place of the check's high byte in a block.
pub const CHECK_HIGH: usize = 511;

// The check is a sum modulo this number.
const MODULUS: u32 = 65521;

// The byte at a place of a slice, and 0 past its end.
pub fn byte_at(file: &[u8], at: usize) -> u8
    ensures { result ≡ get_or file.now at 0 }
{
    file.get(at).copied().unwrap_or(0)
}

// The file from the start of a block on, and nothing where the file ends before it.
fn from_block<'a>(file: &'a [u8], block: usize) -> &'a [u8]
    ensures { result.now ≡ drop (512 * block) file.now }
{
    let length = file.len();
    if length / BLOCK < block {
        return &file[length..];
    }
    let at = BLOCK * block;
    &file[at..]
}

// A block reader shows one block of the lent file at a time: it holds the file and the number of that block.
#[derive(Clone, Copy)]
struct Reader<'a> {
    pub file: &'a [u8],
    pub block: usize,
}

impl<'a> Reader<'a> {
    // A block reader of the lent file that shows this block.
    fn at(file: &'a [u8], block: usize) -> Reader<'a>
        ensures { (result.file ≡ file.entry) × (result.block ≡ block) }
    {
        Reader { file, block }
    }

    // Byte j of the one block that the reader shows, and 0 past the file's end.
    fn byte(self, j: usize) -> u8
        ensures { result ≡ byte_of self.entry.file.now self.entry.block j }
    {
        byte_at(from_block(self.file, self.block), j)
    }
}

// Byte j of a block of the file, as a block reader shows it. Whoever reads blocks calls it, by plain numbers, of which `exchanged_numbers`
// is an edit.
pub fn block_byte(file: &[u8], block: usize, j: usize) -> u8
    ensures { result ≡ byte_of file.now block j }
{
    Reader::at(file, block).byte(j)
}

// The number of two bytes, low byte first.
pub fn two_of(low: u8, high: u8) -> u16
    ensures { result ≡ two low high }
{
    u16::from_le_bytes([low, high])
}

// The running totals of the check, taken from the back: that of the bytes seen so far, and that of those totals.
#[derive(Clone, Copy)]
pub struct Totals {
    pub plain: u32,
    pub weighed: u32,
}

// The totals with one byte more: the first grows by the byte, the second by the first.
fn grown(t: Totals, b: u8) -> Totals
    requires { (t.plain + 255 < 2 ^ 32) × (t.weighed + (t.plain + 255) < 2 ^ 32) }
    ensures { Grown t b result }
{
    let plain = t.plain + u32::from(b);
    let weighed = t.weighed + plain;
    Totals { plain, weighed }
}

// The sum of the check over the bytes of a block, from the last to the first and without a product. At most 510 bytes are added, so
// neither total comes near 2^32, and the remainder is taken once, of the result.
fn weighed(bytes: &[u8]) -> u32
    ensures { result ≡ sum_below 510 (λ i. (i + 1) * get_or bytes.now i 0) }
{
    let mut totals = Totals {
        plain: 0,
        weighed: 0,
    };
    for i in (0..CHECKED).rev() {
        totals = grown(totals, byte_at(bytes, i));
    }
    totals.weighed
}

// The check of a block of the file. The block's part of the file is taken once.
pub fn check_of(file: &[u8], block: usize) -> u32
    ensures { result ≡ check_of (byte_of file.now block) }
{
    weighed(from_block(file, block)) % MODULUS
}

// Whether bytes 510 and 511 of a block hold its check.
fn check_right(file: &[u8], block: usize) -> bool
    ensures { result ≡ check_right (byte_of file.now block) }
{
    let check = check_of(file, block);
    let low = u32::from(block_byte(file, block, CHECKED)) == check % 256;
    let high = u32::from(block_byte(file, block, CHECK_HIGH)) == check / 256 % 256;
    low & high
}

// Whether every whole block of the file holds its check.
pub fn checks_right(file: &[u8]) -> bool
    ensures { result ≡ checks_right file.now }
{
    for i in 0..file.len() / BLOCK {
        if !check_right(file, i) {
            return false;
        }
    }
    true
}
