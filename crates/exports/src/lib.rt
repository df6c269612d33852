// The calls of document 01 as other languages see them: functions on numbers and slices, with the answer codes that
// include/twolsken.h states. Each is thin over the library's own call; the crate `exports_c` exports them.
#![tactic(auto)]

pub mod merging;
pub mod questions;
pub mod sentences;

ghost use Rattle.exports.specs.Models.{ExportedReadModel, model_of_parts, ExportedWriteModel};

use codes::answer_code;
use model::Model;

// Read model: returns 0 and leaves the model in the three lent parts (N, A, D and the version; the masks; the weights), or returns
// the refusal's number and leaves the lent memory unchanged.
pub fn twolsken_read_model(
    file: &[u8],
    head: &mut [u32; 4],
    masks: &mut [u16; 32],
    rows: &mut [[u16; 32]; 32],
) -> u32
    ensures { ExportedReadModel file.now head.old masks.old rows.old head.new
        masks.new rows.new result }
{
    match model_reader::read_model(file) {
        Ok(m) => {
            let (read_masks, read_rows) = (m.masks, m.weights);
            *head = [m.n, m.a, m.d, m.version];
            *masks = read_masks;
            *rows = read_rows;
            0
        }
        Err(refusal) => u32::from(u8::from(refusal)),
    }
}

// Write model, of the three parts that read model leaves (N, A, D and the version; the masks; the weights): returns the number of bytes
// written at the front of the output, or 2^32 plus the refusal's number, with the output unchanged.
pub fn twolsken_write_model(
    head: &[u32; 4],
    masks: &[u16; 32],
    rows: &[[u16; 32]; 32],
    out: &mut [u8],
) -> u64
    ensures { ExportedWriteModel (model_of_parts head.now masks.now rows.now) out.old
        out.new result }
{
    let m = Model {
        n: head[0],
        a: head[1],
        d: head[2],
        version: head[3],
        masks: *masks,
        weights: *rows,
    };
    answer_code(model_writer::write_model(&m, out))
}
