// Merge for other languages, thin over the library's own call.
ghost use Rattle.exports.specs.Models.{ExportedMerge};

use codes::answer_code;

// Merge: returns the number of bytes of the merged model's file, written at the front of the output, or 2^32 plus the
// refusal's number, with the output unchanged.
pub fn twolsken_merge(file: &[u8], grouping: &[u8], out: &mut [u8]) -> u64
    ensures { ExportedMerge file.now grouping.now out.old out.new result }
{
    answer_code(merge::merge(file, grouping, out))
}
