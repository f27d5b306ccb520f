// Tables at the edges: widths, switch counts, entries, sides, repeats, rule counts.
use crate::made::{entries_to, raw_rule, repeated};
use rules::faults::{Cause, Fault, Layer};
use rules::kinds::RawKind;
use sheets::raw::RawRule;
use sheets::sheet::Sheet;
use sheets::tabling::{check_table, make_table};
use std::slice;
use std::test::Fail;

// The fault of a table.
fn refusal(cause: Cause, record: u16, place: usize) -> Result<(), Fault> {
    Err(Layer::Table.fault(cause, record, place))
}

// Passed, or refused for the cause at that place of the first rule.
fn passed_if(passes: bool, cause: Cause, place: usize) -> Result<(), Fault> {
    if passes {
        Ok(())
    } else {
        refusal(cause, 0, place)
    }
}

// The check of a table of one rule over n switches.
fn check_alone(n: u16, rule: &RawRule) -> Result<(), Fault> {
    check_table(n, slice::from_ref(rule))
}

#[test]
fn widths(rt: HostRuntime) -> Result<(), Fail> {
    let heap = rt.alloc();
    for (kind, most) in [(RawKind::Clause, 8i16), (RawKind::Parity(1), 16i16)] {
        for width in 0i16..20i16 {
            let rule = raw_rule(heap, kind, entries_to(heap, width)?.as_slice())?;
            let expected = passed_if(width >= 1 && width <= most, Cause::Width, 0);
            assert_eq!(rt; check_alone(20, &rule), expected);
        }
    }
    Ok(())
}

#[test]
fn entries(rt: HostRuntime) -> Result<(), Fail> {
    let heap = rt.alloc();
    let clause = RawKind::Clause;
    let odd = RawKind::Parity(1);
    let n = 5;
    for (kind, entry, fits) in [
        (clause, 5i16, true),
        (clause, -5, true),
        (clause, 0, false),
        (clause, 6, false),
        (clause, -6, false),
        (clause, i16::MIN, false),
        (clause, i16::MAX, false),
        (odd, 5, true),
        (odd, -5, false),
        (odd, 0, false),
        (odd, 6, false),
    ] {
        let rule = raw_rule(heap, kind, &[1, entry])?;
        let expected = passed_if(fits, Cause::Entry, 1);
        assert_eq!(rt; check_alone(n, &rule), expected);
    }
    for again in [2i16, -2] {
        let rule = raw_rule(heap, clause, &[1, 2, 3, again, 9])?;
        assert_eq!(rt; check_alone(n, &rule), refusal(Cause::Repeat, 0, 3));
    }
    Ok(())
}

#[test]
fn sides_and_switches(rt: HostRuntime) -> Result<(), Fail> {
    let heap = rt.alloc();
    for (side, fits) in [(0u8, true), (1, true), (2, false), (255, false)] {
        let rule = raw_rule(heap, RawKind::Parity(side), &[1, 2])?;
        let expected = passed_if(fits, Cause::Entry, 0);
        assert_eq!(rt; check_alone(3, &rule), expected);
    }
    let empty = raw_rule(heap, RawKind::Parity(7), &[])?;
    assert_eq!(rt; check_alone(3, &empty), refusal(Cause::Width, 0, 0));
    for (n, fits) in [
        (0u16, false),
        (1, true),
        (256, true),
        (257, false),
        (65535, false),
    ] {
        let rule = raw_rule(heap, RawKind::Clause, &[1])?;
        let expected = passed_if(fits, Cause::SwitchCount, 0);
        assert_eq!(rt; check_alone(n, &rule), expected);
        let table = make_table(heap, n, slice::from_ref(&rule))?;
        assert_eq!(rt; table.switches(), if fits { n } else { 0 });
        assert_eq!(rt; table.count(), if fits { 1 } else { 0 });
    }
    Ok(())
}

#[test]
fn rule_counts(rt: HostRuntime) -> Result<(), Fail> {
    let heap = rt.alloc();
    let mut rules = repeated(heap, RawKind::Clause, &[3], 1024)?;
    assert_eq!(rt; check_table(3, rules.as_slice()), Ok(()));
    assert_eq!(rt; make_table(heap, 3, rules.as_slice())?.count(), 1024);
    rules.push(raw_rule(heap, RawKind::Clause, &[9])?)?;
    assert_eq!(rt;
        check_table(3, rules.as_slice()),
        refusal(Cause::RuleCount, 1024, 0)
    );
    assert_eq!(rt; make_table(heap, 3, rules.as_slice())?.count(), 0);
    assert_eq!(rt;
        check_table(0, rules.as_slice()),
        refusal(Cause::SwitchCount, 0, 0)
    );
    Ok(())
}
