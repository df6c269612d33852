// Numbers in a text, read and written. Document 01: a number is one to five digits, with no
// leading zero unless it is `0`. What reads from a text gives what it found at the front, and the rest of the text.
#![tactic(auto)]

ghost use Rattle.std.specs.Prelude.{take, ℕ, List, ◌+◌, ◌≤◌, ◌<◌, [], ◌∷◌, ◌++◌, ◌≡◌, length, MatchOption};
ghost use Rattle.numerals.specs.Numeral.{number_text};
ghost use Rattle.numerals.specs.Working.{IsNumber, NoNumber, AreNumbers, NoNumbers, NoDigit, Put, numbers_text};

use std::marker::Model;

// A number of at most five digits is below this.
pub const BEYOND: u32 = 100000;

// The text after its first byte, if that is `byte`.
fn after(text: &[u8], byte: u8) -> Option<&[u8]>
    ensures { MatchOption result ((rest : List ℕ) → text.now ≡ byte ∷ rest → ⊥) (λ rest. text.now ≡ byte ∷ rest.now) }
{
    match text {
        [first, rest @ ..] if *first == byte => Some(rest),
        _ => None,
    }
}

// Reads the rest of a number whose digits so far have this value, not 0, and the byte `close` after it. At 10,000 five digits are
// read, and a sixth is refused.
fn more_digits(text: &[u8], value: u32, close: u8) -> Option<(u32, &[u8])>
    requires { (1 ≤ value) × (value < 100000) × NoDigit close }
    ensures { MatchOption result (NoNumber (number_text value ++ text.now) close)
        (λ r. IsNumber (number_text value ++ text.now) close r.0 r.1.now) }
{
    let (first, rest) = text.split_first()?;
    match first {
        b'0'..=b'9' => {
            if 10000 <= value {
                return None;
            }
            more_digits(rest, value * 10 + (first - b'0') as u32, close)
        }
        _ if *first == close => Some((value, rest)),
        _ => None,
    }
}

// Reads a number, and the byte `close` after it.
fn number(text: &[u8], close: u8) -> Option<(u32, &[u8])>
    requires { NoDigit close }
    ensures { MatchOption result (NoNumber text.now close) (λ r. IsNumber text.now close r.0 r.1.now) }
{
    let (first, rest) = text.split_first()?;
    match first {
        b'0' => Some((0, after(rest, close)?)),
        b'1'..=b'9' => more_digits(rest, (first - b'0') as u32, close),
        _ => None,
    }
}

// Reads two numbers, the byte `middle` after the first and `close` after the second.
pub fn two_numbers(text: &[u8], middle: u8, close: u8) -> Option<(u32, u32, &[u8])>
    requires { NoDigit middle × NoDigit close }
    ensures { MatchOption result (NoNumbers text.now middle close) (λ r. AreNumbers text.now middle close r.0 r.1 r.2.now) }
{
    let (first, rest) = number(text, middle)?;
    let (second, rest) = number(rest, close)?;
    Some((first, second, rest))
}

// The number of digits that a number is written with.
pub fn number_size(n: u32) -> usize
    ensures { (result ≡ length (number_text n)) × (result ≤ 5) }
{
    match n {
        0..=9 => 1,
        10..=99 => 2,
        100..=999 => 3,
        1000..=9999 => 4,
        _ => 5,
    }
}

// Writes one byte; returns the place after it.
pub fn put_byte(out: &mut [u8], at: usize, b: u8) -> usize
    requires { at < length out.old }
    ensures { Put out.old at (b ∷ []) result out.new }
{
    out[at] = b;
    at + 1
}

// Writes a number; returns the place after it.
fn put_number(out: &mut [u8], at: usize, n: u32) -> usize
    requires { (n < 100000) × (at + length (number_text n) ≤ length out.old) }
    ensures { Put out.old at (number_text n) result out.new }
{
    let last = if 10 <= n {
        put_number(out, at, n / 10)
    } else {
        at
    };
    put_byte(out, last, b'0' + (n % 10) as u8)
}

// Writes a byte and two numbers with a byte after each: a constant, or an until and its window.
pub fn put_numbers(
    out: &mut [u8],
    at: usize,
    lead: u8,
    a: u32,
    middle: u8,
    b: u32,
    close: u8,
) -> usize
    requires { (a < 100000) × (b < 100000) × (at + length (numbers_text lead a middle b close) ≤ length out.old) }
    ensures { Put out.old at (numbers_text lead a middle b close) result out.new }
{
    let first = put_byte(out, at, lead);
    let second = put_number(out, first, a);
    let third = put_byte(out, second, middle);
    let fourth = put_number(out, third, b);
    put_byte(out, fourth, close)
}

// A text that is written: the bytes so far, at most 400 of them.
#[derive(Drop)]
pub struct Text {
    bytes: [u8; 400],
    size: usize,
}

impl Model for Text {
    ghost Value = { List ℕ };

    ghost view = { λ t. take t.size t.bytes };

    ghost invariant = { λ t. t.size ≤ 400 };
}

impl Text {
    // The text with no byte.
    pub fn new() -> Text
        ensures { result ≡ [] }
    {
        Text {
            bytes: [0; 400],
            size: 0,
        }
    }

    // The bytes of the text.
    pub fn bytes(&self) -> &[u8]
        ensures { result.now ≡ self.now }
    {
        &self.bytes[..self.size]
    }

    // Writes a byte.
    pub fn byte(&mut self, byte: u8)
        requires { length self.old < 400 }
        ensures { self.new ≡ self.old ++ byte ∷ [] }
    {
        self.size = put_byte(&mut self.bytes, self.size, byte);
    }

    // Writes a byte and two numbers with a byte after each, as `put_numbers` does. Its parameters are the five parts in the order in
    // which they stand: a struct of them would be made at each call and taken apart here, which is no plainer.
    pub fn numbers(&mut self, lead: u8, a: u32, middle: u8, b: u32, close: u8)
        requires { (a < 100000) × (b < 100000) × (length self.old + length (numbers_text lead a middle b close) ≤ 400) }
        ensures { self.new ≡ self.old ++ numbers_text lead a middle b close }
    {
        self.size = put_numbers(&mut self.bytes, self.size, lead, a, middle, b, close);
    }
}
