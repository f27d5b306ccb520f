// Any sheet as a first-year file in a lent buffer.
ghost use Rattle.std.specs.Prelude.{◌≡◌, ◌≤◌, length};
ghost use Rattle.text.specs.Lent.{over_front};
ghost use Rattle.writer.specs.Expansion.{clauses_of};
ghost use Rattle.writer.specs.Writing.{first_year_bytes, writing, Outcome};
ghost use Rattle.writer.specs.Parts.{Writable};
ghost use Rattle.writer.specs.ReadBack.{ReadsBack};

use crate::counting::check_sheet;
use crate::output::Output;
use rules::faults::{Cause, Fault, Layer};
use sheets::sheet::Sheet;

// Head, records and end, where there is room for them.
fn put_file<S: Sheet>(sheet: &S, records: usize, out: &mut [u8])
    requires writable { Writable (S.Sheet.meaning sheet.now) }
    requires counted { records ≡ length (clauses_of (S.Sheet.meaning sheet.now).rules) }
    requires room { length (first_year_bytes (S.Sheet.meaning sheet.now)) ≤ length out.old }
    ensures { out.new ≡ over_front (first_year_bytes (S.Sheet.meaning sheet.now)) out.old }
{
    let mut file = Output::new(out);
    file.put_numbered(b"F1", sheet.switches());
    file.put_rules(sheet);
    file.put_numbered(b"EN", records as u16);
}

// The file of the sheet at the front of the buffer, and its length; what lies behind it in the buffer stays. Nothing is written where the sheet is refused or the buffer is shorter than the file. What was written passes the first-year check and means a sheet of as many switches that the same settings keep.
pub fn write_first_year<S: Sheet>(sheet: &S, out: &mut [u8]) -> Result<usize, Fault>
    ensures outcome { Outcome (writing (S.Sheet.meaning sheet.now)) out.old out.new result }
    ensures reads_back { ReadsBack (S.Sheet.meaning sheet.now) out.new result }
{
    let records = check_sheet(sheet)?;
    let length = 8 + 18 * records;
    if out.len() < length {
        return Err(Layer::Writer.fault(Cause::ShortBuffer, 0, 0));
    }
    put_file(sheet, records, out);
    Ok(length)
}
