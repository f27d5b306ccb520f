// Files in piles, and sheets written as first-year files and read back.
use crate::made::{entries_to, off, on, repeated};
use files::any::read_any;
use rules::faults::{Cause, Fault, Layer};
use rules::kinds::{Kind, RawKind, Side};
use sheets::pair::Pair;
use sheets::placing::Placing;
use sheets::sheet::Sheet;
use sheets::table::Table;
use sheets::tabling::make_table;
use std::alloc::{AllocError, Global};
use std::test::Fail;
use writer::first_year::write_first_year;

// An odd number of the switches 1, 2, 3 is on: as a third-year file, and written as the four clauses of a first-year file.
const ODD_THREE: [u8; 18] = *b"F3\x03\0PA\x03\x01\x01\0\x02\0\x03\0EN\x01\0";

const WRITTEN: [u8; 80] =
    *b"F1\x03\0CL\x01\0\x02\0\x03\0\0\0\0\0\0\0\0\0\0\0CL\x01\0\xFE\xFF\xFD\xFF\0\0\0\0\0\0\0\0\0\0CL\xFF\xFF\x02\0\xFD\xFF\0\0\0\0\0\0\0\0\0\0CL\xFF\xFF\xFE\xFF\x03\0\0\0\0\0\0\0\0\0\0\0EN\x04\0";

// The fault of the writer.
fn refusal(cause: Cause, record: u16) -> Result<usize, Fault> {
    Err(Layer::Writer.fault(cause, record, 0))
}

// That many parity rules on the switches 1 to `width`.
fn parities(heap: Global, count: u16, width: i16) -> Result<Table, AllocError> {
    let entries = entries_to(heap, width)?;
    let rules = repeated(heap, RawKind::Parity(0), entries.as_slice(), count)?;
    make_table(heap, 16, rules.as_slice())
}

#[test]
fn a_file_in_a_pile(rt: HostRuntime) -> Result<(), Fail> {
    let heap = rt.alloc();
    let pile = Pair {
        first: Placing {
            below: read_any(heap, &WRITTEN)?,
            by: 7,
        },
        second: read_any(heap, &ODD_THREE)?,
    };
    assert_eq!(rt; pile.switches(), 10);
    assert_eq!(rt; pile.count(), 5);
    assert_eq!(rt; pile.kind(3), Some(Kind::Clause));
    assert_eq!(rt; pile.kind(4), Some(Kind::Parity(Side::Odd)));
    assert_eq!(rt; pile.kind(5), None);
    assert_eq!(rt; pile.entry(0, 0), on(8));
    assert_eq!(rt; pile.entry(1, 2), off(10));
    assert_eq!(rt; pile.entry(1, 3), None);
    assert_eq!(rt; pile.entry(4, 2), on(3));
    assert_eq!(rt; pile.entry(4, 3), None);
    assert_eq!(rt; pile.entry(5, 0), None);
    Ok(())
}

#[test]
fn written_and_read_back(rt: HostRuntime) -> Result<(), Fail> {
    let heap = rt.alloc();
    let sheet = read_any(heap, &ODD_THREE)?;
    let mut out = [0xAAu8; 82];
    assert_eq!(rt; write_first_year(&sheet, &mut out), Ok(80));
    let (file, behind) = out.split_at(80);
    assert_eq!(rt; file, WRITTEN.as_slice());
    assert_eq!(rt; behind, [0xAA; 2].as_slice());
    let mut exact = [0xAAu8; 80];
    assert_eq!(rt; write_first_year(&sheet, &mut exact), Ok(80));
    let back = read_any(heap, &exact)?;
    assert_eq!(rt; back.switches(), 3);
    assert_eq!(rt; back.count(), 4);
    assert_eq!(rt; back.entry(3, 1), off(2));
    let mut short = [0xAAu8; 79];
    assert_eq!(rt;
        write_first_year(&sheet, &mut short),
        refusal(Cause::ShortBuffer, 0)
    );
    assert_eq!(rt; short, [0xAA; 79]);
    Ok(())
}

#[test]
fn what_cannot_be_written(rt: HostRuntime) -> Result<(), Fail> {
    let heap = rt.alloc();
    let mut out = vec![in heap; 0u8; 18440]?;
    let wide = parities(heap, 1, 17)?;
    assert_eq!(rt; wide.switches(), 0);
    assert_eq!(rt;
        write_first_year(&wide, out.as_mut_slice()),
        refusal(Cause::SwitchCount, 0)
    );
    assert_eq!(rt;
        write_first_year(&parities(heap, 1, 5)?, out.as_mut_slice()),
        Ok(296)
    );
    let six = Pair {
        first: parities(heap, 3, 5)?,
        second: parities(heap, 2, 6)?,
    };
    assert_eq!(rt;
        write_first_year(&six, out.as_mut_slice()),
        refusal(Cause::ParityTooWide, 3)
    );
    assert_eq!(rt;
        write_first_year(&parities(heap, 64, 5)?, out.as_mut_slice()),
        Ok(18440)
    );
    assert_eq!(rt;
        write_first_year(&parities(heap, 65, 5)?, out.as_mut_slice()),
        refusal(Cause::TooManyRecords, 0)
    );
    Ok(())
}
