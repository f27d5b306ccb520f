// Tables checked and made from rules that come from outside.
ghost use Rattle.std.specs.Prelude.{◌≡◌, ◌<◌, map, IfOk};
ghost use Rattle.rules.specs.First.{on_ok};
ghost use Rattle.rules.specs.Checks.{checked};
ghost use Rattle.rules.specs.Views.{constraint};
ghost use Rattle.sheets.specs.Meaning.{check_of, or_blank, blank};
ghost use Rattle.sheets.specs.Tables.{table, table_size};
ghost use Rattle.sheets.specs.Views.{draft, tabled};

use crate::raw::RawRule;
use crate::table::Table;
use rules::checks::check_rule;
use rules::faults::{Cause, Fault, Layer};
use rules::rule::Rule;
use std::alloc::{AllocError, Global};

fn check_size(n: u16, count: usize) -> Result<(), Fault>
    ensures { result ≡ table_size n count }
{
    if !(1..=256).contains(&n) {
        return Err(Layer::Table.fault(Cause::SwitchCount, 0, 0));
    }
    if count > 1024 {
        return Err(Layer::Table.fault(Cause::RuleCount, 1024, 0));
    }
    Ok(())
}

// Rule i of a table over n switches, or its fault.
fn check_draft(n: u16, i: usize, rule: &RawRule) -> Result<Rule, Fault>
    requires { i < 1024 }
    ensures { on_ok constraint result ≡ checked Layer.Table i n rule.now.kind rule.now.entries.items }
{
    check_rule(
        Layer::Table,
        i as u16,
        n,
        rule.kind,
        rule.entries.as_slice(),
    )
}

// The first fault of a table over n switches: its size, then rule by rule.
pub fn check_table(n: u16, rules: &[RawRule]) -> Result<(), Fault>
    ensures { result ≡ check_of (table n (map draft rules.now)) }
{
    check_size(n, rules.len())?;
    // The index is the record that a fault names.
    for (i, rule) in rules.iter().enumerate() {
        check_draft(n, i, rule)?;
    }
    Ok(())
}

// The sheet with no switches and no rules.
pub fn blank_table(heap: Global) -> Table
    ensures { tabled result ≡ blank }
{
    Table {
        switches: 0,
        rules: Vec::new(heap),
    }
}

// The table of these rules over n switches, blank where it would be refused. The loop is that of the check, which takes no memory and so keeps no rule.
pub fn make_table(heap: Global, n: u16, rules: &[RawRule]) -> Result<Table, AllocError>
    ensures { IfOk result (λ t. tabled t ≡ or_blank (table n (map draft rules.now))) }
{
    if check_size(n, rules.len()).is_err() {
        return Ok(blank_table(heap));
    }
    let mut built = Vec::new(heap);
    for (i, rule) in rules.iter().enumerate() {
        let Ok(rule) = check_draft(n, i, rule) else {
            return Ok(blank_table(heap));
        };
        built.push(rule)?;
    }
    Ok(Table {
        switches: n,
        rules: built,
    })
}
