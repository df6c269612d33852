// The static library that other languages link: each function is the symbol that include/twolsken.h declares, and calls the function
// of the same name of the crate `exports`, with the same contract. A crate is a library or a static library, not both.
#![tactic(auto)]

ghost use Rattle.codes.specs.Codes.{sentence_of};
ghost use Rattle.exports.specs.Models.{ExportedReadModel, model_of_parts, ExportedWriteModel, ExportedMerge};
ghost use Rattle.exports.specs.Questions.{ExportedVerdict, ExportedNumerator};
ghost use Rattle.exports.specs.Sentences.{ExportedReadSentence, ExportedWriteSentence};

use exports::{merging, questions, sentences};

// Read model: returns 0 and leaves the model in the three lent parts (N, A, D and the version; the masks; the weights), or returns
// the refusal's number and leaves the lent memory unchanged.
#[unsafe(no_mangle)]
pub extern "C" fn twolsken_read_model(
    file: &[u8],
    head: &mut [u32; 4],
    masks: &mut [u16; 32],
    rows: &mut [[u16; 32]; 32],
) -> u32
    ensures { ExportedReadModel file.now head.old masks.old rows.old head.new
        masks.new rows.new result }
{
    exports::twolsken_read_model(file, head, masks, rows)
}

// Write model, of the three parts that read model leaves (N, A, D and the version; the masks; the weights): returns the number of bytes
// written at the front of the output, or 2^32 plus the refusal's number, with the output unchanged.
#[unsafe(no_mangle)]
pub extern "C" fn twolsken_write_model(
    head: &[u32; 4],
    masks: &[u16; 32],
    rows: &[[u16; 32]; 32],
    out: &mut [u8],
) -> u64
    ensures { ExportedWriteModel (model_of_parts head.now masks.now rows.now) out.old
        out.new result }
{
    exports::twolsken_write_model(head, masks, rows, out)
}

// Read sentence: returns 0 and leaves the sentence in the three lent parts (the number of letters and the count; the
// letters; the codes), or returns the refusal's number and leaves the lent memory unchanged.
#[unsafe(no_mangle)]
pub extern "C" fn twolsken_read_sentence(
    text: &[u8],
    head: &mut [u64; 2],
    exists: &mut [u8; 4],
    codes: &mut [[u32; 3]; 64],
) -> u32
    ensures { ExportedReadSentence text.now head.old exists.old codes.old
        head.new exists.new codes.new result }
{
    sentences::twolsken_read_sentence(text, head, exists, codes)
}

// Write sentence: returns the number of bytes written at the front of the output, or 2^32 plus the refusal's number, with
// the output unchanged.
#[unsafe(no_mangle)]
pub extern "C" fn twolsken_write_sentence(
    letters: u64,
    count: u64,
    exists: &[u8; 4],
    codes: &[[u32; 3]; 64],
    out: &mut [u8],
) -> u64
    ensures { ExportedWriteSentence (sentence_of letters count exists.now codes.now) out.old
        out.new result }
{
    sentences::twolsken_write_sentence(letters, count, exists, codes, out)
}

// Verdict: returns 256 where the sentence holds on the model and 257 where it does not, and clears as many numbers of the
// work area as row 1 asks for; or returns the refusal's number and leaves the area unchanged.
#[unsafe(no_mangle)]
pub extern "C" fn twolsken_verdict(file: &[u8], text: &[u8], work: &mut [u64]) -> u32
    ensures { ExportedVerdict file.now text.now work.old work.new result }
{
    questions::twolsken_verdict(file, text, work)
}

// Numerator: returns 0, leaves the numerator and the denominator in the two lent numbers, and clears as many numbers of the
// work area as row 1 asks for; or returns the refusal's number and leaves the lent memory unchanged.
#[unsafe(no_mangle)]
pub extern "C" fn twolsken_numerator(
    file: &[u8],
    text: &[u8],
    tuple: &[u8],
    path: usize,
    work: &mut [u64],
    value: &mut [u64; 2],
) -> u32
    ensures { ExportedNumerator file.now text.now tuple.now path work.old
        value.old work.new value.new result }
{
    questions::twolsken_numerator(file, text, tuple, path, work, value)
}

// Merge: returns the number of bytes of the merged model's file, written at the front of the output, or 2^32 plus the
// refusal's number, with the output unchanged.
#[unsafe(no_mangle)]
pub extern "C" fn twolsken_merge(file: &[u8], grouping: &[u8], out: &mut [u8]) -> u64
    ensures { ExportedMerge file.now grouping.now out.old out.new result }
{
    merging::twolsken_merge(file, grouping, out)
}
