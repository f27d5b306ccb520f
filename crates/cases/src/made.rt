// Literals, rules and sheets that the tests share.
use rules::kinds::RawKind;
use rules::literals::Literal;
use sheets::raw::RawRule;
use sheets::table::Table;
use sheets::tabling::make_table;
use std::alloc::{AllocError, Global};
use std::slice;

pub(crate) fn on(switch: u16) -> Option<Literal> {
    Some(Literal { switch, on: true })
}

pub(crate) fn off(switch: u16) -> Option<Literal> {
    Some(Literal { switch, on: false })
}

// The rule with these entries.
pub(crate) fn raw_rule(
    heap: Global,
    kind: RawKind,
    entries: &[i16],
) -> Result<RawRule, AllocError> {
    let entries = entries.to_vec(heap)?;
    Ok(RawRule { kind, entries })
}

// The entries 1 to `width`.
pub(crate) fn entries_to(heap: Global, width: i16) -> Result<Vec<i16>, AllocError> {
    (1..=width).collect(heap)
}

// The rule with these entries, that many times.
pub(crate) fn repeated(
    heap: Global,
    kind: RawKind,
    entries: &[i16],
    count: u16,
) -> Result<Vec<RawRule>, AllocError> {
    let mut rules = Vec::new(heap);
    // So many times; nothing is indexed.
    for _ in 0..count {
        rules.push(raw_rule(heap, kind, entries)?)?;
    }
    Ok(rules)
}

// An odd number of the switches 1, 2, 3 is on.
pub(crate) fn odd_three(heap: Global) -> Result<Table, AllocError> {
    let odd = raw_rule(heap, RawKind::Parity(1), &[1, 2, 3])?;
    make_table(heap, 3, slice::from_ref(&odd))
}
