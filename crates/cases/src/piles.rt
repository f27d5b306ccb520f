// Placings and pairs at the edges, and what they tell at each index.
use crate::made::{odd_three, on, repeated};
use rules::faults::{Cause, Layer};
use rules::kinds::{Kind, RawKind, Side};
use sheets::pair::Pair;
use sheets::placing::Placing;
use sheets::raw::RawRule;
use sheets::sheet::Sheet;
use sheets::table::Table;
use sheets::tabling::make_table;
use std::alloc::{AllocError, Global};
use std::test::Fail;

// That many clauses, each of the one literal 1.
fn clauses(heap: Global, count: u16) -> Result<Table, AllocError> {
    let rules = repeated(heap, RawKind::Clause, &[1], count)?;
    make_table(heap, 2, rules.as_slice())
}

#[test]
fn placed_to_the_top(rt: HostRuntime) -> Result<(), Fail> {
    let heap = rt.alloc();
    let high = Placing {
        below: odd_three(heap)?,
        by: 253,
    };
    assert_eq!(rt; high.check(), Ok(()));
    assert_eq!(rt; high.switches(), 256);
    assert_eq!(rt; high.entry(0, 0), on(254));
    assert_eq!(rt; high.entry(0, 2), on(256));
    assert_eq!(rt; high.entry(0, 3), None);
    for by in [254u16, 65535] {
        let past = Placing {
            below: odd_three(heap)?,
            by,
        };
        assert_eq!(rt;
            past.check(),
            Err(Layer::Pile.fault(Cause::PlacedTooHigh, 0, 0))
        );
        assert_eq!(rt; past.switches(), 0);
        assert_eq!(rt; past.count(), 0);
        assert_eq!(rt; past.kind(0), None);
    }
    let none: Vec<RawRule> = Vec::new(heap);
    let blank = Placing {
        below: make_table(heap, 0, none.as_slice())?,
        by: 5,
    };
    assert_eq!(rt; blank.check(), Ok(()));
    assert_eq!(rt; blank.switches(), 5);
    assert_eq!(rt; blank.count(), 0);
    Ok(())
}

#[test]
fn pairs_to_the_limit(rt: HostRuntime) -> Result<(), Fail> {
    let heap = rt.alloc();
    let full = Pair {
        first: clauses(heap, 1024)?,
        second: clauses(heap, 1024)?,
    };
    assert_eq!(rt; full.check(), Ok(()));
    assert_eq!(rt; full.count(), 2048);
    assert_eq!(rt; full.kind(2047), Some(Kind::Clause));
    assert_eq!(rt; full.kind(2048), None);
    let past = Pair {
        first: full,
        second: clauses(heap, 1)?,
    };
    assert_eq!(rt;
        past.check(),
        Err(Layer::Pile.fault(Cause::PairTooLong, 0, 0))
    );
    assert_eq!(rt; past.switches(), 0);
    assert_eq!(rt; past.count(), 0);
    Ok(())
}

#[test]
fn nested(rt: HostRuntime) -> Result<(), Fail> {
    let heap = rt.alloc();
    let inner = Pair {
        first: odd_three(heap)?,
        second: clauses(heap, 2)?,
    };
    let pile = Pair {
        first: Placing {
            below: inner,
            by: 10,
        },
        second: odd_three(heap)?,
    };
    assert_eq!(rt; pile.check(), Ok(()));
    assert_eq!(rt; pile.switches(), 13);
    assert_eq!(rt; pile.count(), 4);
    assert_eq!(rt; pile.kind(0), Some(Kind::Parity(Side::Odd)));
    assert_eq!(rt; pile.kind(2), Some(Kind::Clause));
    assert_eq!(rt; pile.kind(3), Some(Kind::Parity(Side::Odd)));
    assert_eq!(rt; pile.kind(4), None);
    assert_eq!(rt; pile.entry(0, 2), on(13));
    assert_eq!(rt; pile.entry(1, 0), on(11));
    assert_eq!(rt; pile.entry(1, 1), None);
    assert_eq!(rt; pile.entry(3, 0), on(1));
    assert_eq!(rt; pile.entry(3, 3), None);
    assert_eq!(rt; pile.entry(4, 0), None);
    Ok(())
}
