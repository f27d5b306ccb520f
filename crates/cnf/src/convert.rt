// A sheet file of either generation as the text of its sheet, or as the line that tells its refusal.
ghost use Rattle.text.specs.Lent.{WrittenOr};
ghost use Rattle.cnf.specs.Converted.{converted};

use crate::lines::write_cnf;
use files::any::{check_any, read_any};
use std::alloc::Global;
use text::errors::TextError;
use text::refusals::write_refusal;

// The text of the file at the front of the buffer; its length is told, and the buffer beyond is left. A fault is no error here: its line is the text.
pub fn convert(heap: Global, input: &[u8], out: &mut [u8]) -> Result<usize, TextError>
    ensures { WrittenOr (converted input.now) out.old out.new result }
{
    match check_any(input) {
        Ok(()) => {
            let table = read_any(heap, input)?;
            write_cnf(heap, &table, out)
        }
        Err(fault) => write_refusal(heap, fault, out),
    }
}
