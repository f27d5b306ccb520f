// Calls in turn, with their replies.
use crate::one::FirstOn;
use rules::faults::{Cause, Fault, Layer};
use rules::kinds::RawKind;
use search::progress::End;
use session::opening::open;
use session::session::Session;
use sheets::placing::Placing;
use sheets::raw::RawRule;
use sheets::table::Table;
use sheets::tabling::make_table;
use std::alloc::{AllocError, Global};
use std::slice;
use std::test::Fail;

fn refusal(cause: Cause, place: usize) -> Result<(), Fault> {
    Err(Layer::Session.fault(cause, 0, place))
}

// An odd number of the switches 1, 2, 3 is on.
fn odd_three(heap: Global) -> Result<Table, AllocError> {
    let odd = RawRule {
        kind: RawKind::Parity(1),
        entries: [1i16, 2, 3].to_vec(heap)?,
    };
    make_table(heap, 3, slice::from_ref(&odd))
}

// Settles, and tells the end without the setting, and the tries.
fn settle(session: &mut Session, budget: u32) -> (End<()>, u32) {
    let settled = session.settle(budget);
    (settled.end.map(|_setting| ()), settled.tries)
}

#[test]
fn rules_taken_in_turn(rt: HostRuntime) -> Result<(), Fail> {
    let heap = rt.alloc();
    let mut session = open(heap, &odd_three(heap)?)?;
    let mut out = [9u8; 4];
    assert_eq!(rt; session.copy(&mut out), refusal(Cause::NothingFound, 0));
    assert_eq!(rt;
        session.take(RawKind::Clause, &[2, -2]),
        refusal(Cause::Repeat, 1)
    );
    assert_eq!(rt; session.freedom(), Some(2));
    assert_eq!(rt; settle(&mut session, 0), (End::Spent, 0));
    assert_eq!(rt; settle(&mut session, 1), (End::Spent, 1));
    assert_eq!(rt; settle(&mut session, 100), (End::Found(()), 1));
    assert_eq!(rt; settle(&mut session, 100), (End::Found(()), 0));
    assert_eq!(rt; session.copy(&mut out), Ok(()));
    assert_eq!(rt; out, [0, 0, 1, 9]);
    assert_eq!(rt; session.take(RawKind::Clause, &[1]), Ok(()));
    assert_eq!(rt; session.copy(&mut out), refusal(Cause::NothingFound, 0));
    assert_eq!(rt; session.freedom(), Some(1));
    assert_eq!(rt; settle(&mut session, 100), (End::Found(()), 1));
    assert_eq!(rt; session.copy(&mut out), Ok(()));
    assert_eq!(rt; out, [1, 0, 0, 9]);
    let mut short = [7u8; 2];
    assert_eq!(rt; session.copy(&mut short), refusal(Cause::ShortBuffer, 0));
    assert_eq!(rt; short, [7, 7]);
    assert_eq!(rt; session.take(RawKind::Clause, &[2]), Ok(()));
    assert_eq!(rt; session.freedom(), Some(0));
    assert_eq!(rt; settle(&mut session, 0), (End::Found(()), 0));
    assert_eq!(rt; session.take(RawKind::Clause, &[-3]), Ok(()));
    assert_eq!(rt; session.freedom(), None);
    assert_eq!(rt; settle(&mut session, 100), (End::None, 0));
    Ok(())
}

#[test]
fn a_margin_of_64(rt: HostRuntime) -> Result<(), Fail> {
    let heap = rt.alloc();
    let mut session = open(heap, &odd_three(heap)?)?;
    for _ in 0..64u32 {
        assert_eq!(rt; session.take(RawKind::Parity(0), &[1, 2]), Ok(()));
    }
    assert_eq!(rt;
        session.take(RawKind::Parity(0), &[1, 2]),
        refusal(Cause::MarginFull, 0)
    );
    assert_eq!(rt;
        session.take(RawKind::Parity(2), &[1, 2]),
        refusal(Cause::Entry, 0)
    );
    assert_eq!(rt; session.freedom(), Some(1));
    assert_eq!(rt; settle(&mut session, 5), (End::Found(()), 1));
    Ok(())
}

#[test]
fn placed_to_the_top(rt: HostRuntime) -> Result<(), Fail> {
    let heap = rt.alloc();
    let sheet = Placing {
        below: odd_three(heap)?,
        by: 253,
    };
    let mut session = open(heap, &sheet)?;
    assert_eq!(rt; session.freedom(), Some(255));
    assert_eq!(rt; settle(&mut session, 1_000_000), (End::Found(()), 255));
    Ok(())
}

#[test]
fn another_sheet(rt: HostRuntime) -> Result<(), Fail> {
    let heap = rt.alloc();
    let mut session = open(heap, &FirstOn { switches: 2 })?;
    let mut out = [9u8; 2];
    assert_eq!(rt; session.freedom(), Some(1));
    assert_eq!(rt; settle(&mut session, 10), (End::Found(()), 1));
    assert_eq!(rt; session.copy(&mut out), Ok(()));
    assert_eq!(rt; out, [1, 0]);
    Ok(())
}
