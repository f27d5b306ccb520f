// Reports on sheet files.
ghost use Rattle.text.specs.Lent.{WrittenOr};
ghost use Rattle.report.specs.Reports.{sheet_report, file_report, TableOr};

use crate::lines::Report;
use files::any::{check_any, read_any};
use session::opening::open;
use sheets::sheet::Sheet;
use sheets::table::Table;
use std::alloc::Global;
use text::errors::TextError;
use text::lent::write_text;
use text::refusals::write_refusal;

// Opens a session over the sheet, settles it with a budget of 1,000,000 tries, and writes what it tells.
fn write_sheet_report<S: Sheet>(heap: Global, sheet: &S, out: &mut [u8]) -> Result<usize, TextError>
    ensures { WrittenOr (sheet_report (S.Sheet.meaning sheet.now)) out.old out.new result }
{
    let mut session = open(heap, sheet)?;
    let freedom = session.freedom();
    let settled = session.settle(1_000_000);
    let report = Report {
        switches: sheet.switches(),
        rules: sheet.count(),
        freedom,
        settled: &settled,
    };
    write_text(heap, report, out)
}

// The table of the file, or the fault for which it is refused, which comes here by `?` from the record that is at fault.
fn read_table(heap: Global, input: &[u8]) -> Result<Table, TextError>
    ensures { TableOr input.now result }
{
    check_any(input)?;
    let table = read_any(heap, input)?;
    Ok(table)
}

// The report on the sheet file, or the line that tells its refusal, at the front of the buffer; its length is told, and the buffer beyond is left.
pub fn write_report(heap: Global, input: &[u8], out: &mut [u8]) -> Result<usize, TextError>
    ensures { WrittenOr (file_report input.now) out.old out.new result }
{
    match read_table(heap, input) {
        Ok(table) => write_sheet_report(heap, &table, out),
        Err(TextError::Refused(fault)) => write_refusal(heap, fault, out),
        Err(TextError::Memory) => Err(TextError::Memory),
    }
}
