// The line that the program prints.
ghost use Rattle.std.specs.Prelude.{◌≡◌, take};
ghost use Rattle.std.specs.Counts.{IsPrefixLen};
ghost use Rattle.lines.specs.Lines.{line_of, refused_line};

use numerals::number_size;

// Puts the line of an answer at the front of out, and answers its length. The answer is 'holds' or not, or a refusal's number.
pub fn line(answer: Result<bool, u8>, out: &mut [u8; 12]) -> usize
    ensures prefix_len { IsPrefixLen result out.new }
    ensures out_after { take result out.new ≡ line_of answer }
{
    match answer {
        Ok(true) => {
            *out = *b"holds\n\0\0\0\0\0\0";
            6
        }
        Ok(false) => {
            *out = *b"fails\n\0\0\0\0\0\0";
            6
        }
        Err(number) => refused_line(number, out),
    }
}

// Puts `refused`, a blank and the number's one, two or three digits at the front of out, and answers the line's length.
fn refused_line(number: u8, out: &mut [u8; 12]) -> usize
    ensures prefix_len { IsPrefixLen result out.new }
    ensures out_after { take result out.new ≡ refused_line number }
{
    let tens = b'0' + number / 10 % 10;
    let ones = b'0' + number % 10;
    let digits = [b'0' + number / 100, tens, ones];
    let size = number_size(u32::from(number));
    *out = *b"refused \n\n\n\n";
    out[8..8 + size].copy_from_slice(&digits[3 - size..]);
    9 + size
}
