// The program: it reads the files `model.blk` and `sentence.txt` of the folder that it is run in, and prints the verdict as
// one line: `holds`, `fails`, or `refused` with a blank and the number. A missing file is empty, and one final newline of
// the sentence is dropped. If a file exists and cannot be read, the program prints the reason to standard error and no verdict.
#![tactic(auto)]

mod file;

ghost use Rattle.std.specs.Prelude.{◌≡◌, length};
ghost use Rattle.std.specs.Counts.{IsPrefixLen};
ghost use Rattle.twolsken.specs.Contract.{AnswersFiles, AnswersBuffers};

use file::{read_file, report};
use lines::line::line;
use lines::text::without_newline;
use refusal::Refusal;
use std::io;
use std::io::Write;

// How many numbers the program's own work area has: 8 for each of 1,024 tuples, so that no question is refused 1.
const AREA: usize = 8192;

// The verdict on the bytes of the two files, with that work area.
fn answer(model: &[u8], sentence: &[u8]) -> Result<bool, Refusal>
    ensures { AnswersFiles model.now sentence.now result }
{
    let mut work = [0u64; AREA];
    verdict::verdict(model, without_newline(sentence), &mut work)
}

// Prints the line of an answer.
fn print(rt: &HostRuntime, answer: Result<bool, Refusal>) {
    let mut out = [0u8; 12];
    let n = line(answer.map_err(u8::from), &mut out);
    if let Err(error) = io::writer(rt).write_all(&out[..n]) {
        report(rt, "standard output", &error);
    }
}

// The verdict on two files, from their first bytes in two buffers: as many as tell that a file is too long (proofs/AnySize,
// `any_size`), so that files of any size get their answer.
// - A model file of over 3,072 bytes is refused 2, whatever stands in it and in the sentence: no other number goes before it. So
//   3,073 bytes of it are as good as all.
// - A text of over 400 bytes is 6 unless a number below 6 applies, and those ask the model alone. A file of 402 bytes or
//   more has such a text with or without its last byte. So 402 bytes of it are as good as all; 401 are not, since the last
//   of them may be a newline that is not the file's last byte.
fn judged(model: &[u8], m: usize, sentence: &[u8], s: usize) -> Result<bool, Refusal>
    requires { (length model.now ≡ 3073) × IsPrefixLen m model.now × (length sentence.now ≡ 402) × IsPrefixLen s sentence.now }
    ensures { AnswersBuffers model.now m sentence.now s result }
{
    answer(&model[..m], &sentence[..s])
}

// Reads the two files, each as far as its buffer goes, and prints the verdict's line.
fn main(rt: HostRuntime) {
    let mut model = [0u8; 3073];
    let Ok(m) = read_file(&rt, "model.blk", &mut model) else {
        return;
    };
    let mut sentence = [0u8; 402];
    let Ok(s) = read_file(&rt, "sentence.txt", &mut sentence) else {
        return;
    };
    print(&rt, judged(&model, m, &sentence, s));
}
