// Verdict and numerator for other languages, each thin over the library's own call.
ghost use Rattle.exports.specs.Questions.{ExportedVerdict, ExportedNumerator};

// Verdict: returns 256 where the sentence holds on the model and 257 where it does not, and clears as many numbers of the
// work area as row 1 asks for; or returns the refusal's number and leaves the area unchanged.
pub fn twolsken_verdict(file: &[u8], text: &[u8], work: &mut [u64]) -> u32
    ensures { ExportedVerdict file.now text.now work.old work.new result }
{
    match verdict::verdict(file, text, work) {
        Ok(true) => 256,
        Ok(false) => 257,
        Err(refusal) => u32::from(u8::from(refusal)),
    }
}

// Numerator: returns 0, leaves the numerator and the denominator in the two lent numbers, and clears as many numbers of the
// work area as row 1 asks for; or returns the refusal's number and leaves the lent memory unchanged.
pub fn twolsken_numerator(
    file: &[u8],
    text: &[u8],
    tuple: &[u8],
    path: usize,
    work: &mut [u64],
    value: &mut [u64; 2],
) -> u32
    ensures { ExportedNumerator file.now text.now tuple.now path work.old
        value.old work.new value.new result }
{
    match numerator::numerator(file, text, tuple, path, work) {
        Ok(ratio) => {
            *value = [ratio.numerator, ratio.denominator];
            0
        }
        Err(x) => u32::from(u8::from(x)),
    }
}
