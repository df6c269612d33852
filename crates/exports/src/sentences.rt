// Read sentence and write sentence for other languages: a node is a code of three numbers (the crate `codes`). Each call is thin
// over the library's own.
ghost use Rattle.codes.specs.Codes.{sentence_of};
ghost use Rattle.exports.specs.Sentences.{ExportedReadSentence, ExportedWriteSentence};

use codes::{answer_code, codes_of, letter_codes, letters_of, places_of};
use sentence::Sentence;

// Read sentence: returns 0 and leaves the sentence in the three lent parts (the number of letters and the count; the
// letters; the codes), or returns the refusal's number and leaves the lent memory unchanged.
pub fn twolsken_read_sentence(
    text: &[u8],
    head: &mut [u64; 2],
    exists: &mut [u8; 4],
    codes: &mut [[u32; 3]; 64],
) -> u32
    ensures { ExportedReadSentence text.now head.old exists.old codes.old
        head.new exists.new codes.new result }
{
    match sentence_reader::read_sentence(text) {
        Ok(s) => {
            *head = [s.letters as u64, s.count as u64];
            *exists = letter_codes(s.exists);
            *codes = codes_of(s.nodes);
            0
        }
        Err(refusal) => u32::from(u8::from(refusal)),
    }
}

// Write sentence: returns the number of bytes written at the front of the output, or 2^32 plus the refusal's number, with
// the output unchanged.
pub fn twolsken_write_sentence(
    letters: u64,
    count: u64,
    exists: &[u8; 4],
    codes: &[[u32; 3]; 64],
    out: &mut [u8],
) -> u64
    ensures { ExportedWriteSentence (sentence_of letters count exists.now codes.now) out.old
        out.new result }
{
    let s = Sentence {
        letters: letters as usize,
        exists: letters_of(*exists),
        count: count as usize,
        nodes: places_of(*codes),
    };
    answer_code(sentence_writer::write_sentence(&s, out))
}
