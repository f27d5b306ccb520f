// How many records a sheet takes, or why it cannot be written.
ghost use Rattle.std.specs.Prelude.{◌≡◌, ◌≤◌, length, None, IfSome};
ghost use Rattle.std.specs.List.{slice_get};
ghost use Rattle.rules.specs.First.{verdict};
ghost use Rattle.rules.specs.Constraints.{switches};
ghost use Rattle.rules.specs.Views.{constraint};
ghost use Rattle.writer.specs.Expansion.{clauses_of};
ghost use Rattle.writer.specs.Writing.{first_wide, unless_wide};
ghost use Rattle.writer.specs.Parts.{record_count, records_at, records_for};

use rules::faults::{Cause, Fault, Layer};
use rules::kinds::Kind;
use rules::rule::Rule;
use sheets::rules_of::rule_at;
use sheets::sheet::Sheet;

// How many records the rule takes: one for a clause, and one for each of the patterns that break a parity rule, which are half of them. Absent, where a parity rule has more than five switches.
fn records_for(rule: &Rule) -> Option<usize>
    requires { 1 ≤ length (switches (constraint rule.now)) }
    ensures count { result ≡ records_for (constraint rule.now) }
    ensures few { IfSome result (λ records. records ≤ 16) }
{
    match rule {
        Rule::Clause(_clause) => Some(1),
        Rule::Parity(parity) => {
            let width = parity.switches().len();
            if width > 5 {
                return None;
            }
            Some((1 << width) / 2)
        }
    }
}

// How many records rule i takes; none, where there is no such rule. A clause takes one whatever it holds, so its literals are not asked for.
fn records_at<S: Sheet>(sheet: &S, i: usize) -> Option<usize>
    ensures count { result ≡ records_at (slice_get (S.Sheet.meaning sheet.now).rules i) }
    ensures few { IfSome result (λ records. records ≤ 16) }
{
    match sheet.kind(i) {
        Some(Kind::Clause) => Some(1),
        Some(Kind::Parity(_)) | None => match rule_at(sheet, i) {
            Some(rule) => records_for(&rule),
            None => Some(0),
        },
    }
}

// How many records the rules take, or the first rule that is too wide.
fn count_records<S: Sheet>(sheet: &S) -> Result<usize, Fault>
    ensures { result ≡ verdict (unless_wide (first_wide 0 (S.Sheet.meaning sheet.now).rules) None) (length (clauses_of (S.Sheet.meaning sheet.now).rules)) }
{
    let mut records = 0;
    for i in 0..sheet.count() {
        let too_wide = Layer::Writer.fault(Cause::ParityTooWide, i as u16, 0);
        records += records_at(sheet, i).ok_or(too_wide)?;
    }
    Ok(records)
}

// How many records the file of the sheet has, or the first reason to refuse it.
pub(crate) fn check_sheet<S: Sheet>(sheet: &S) -> Result<usize, Fault>
    ensures { result ≡ record_count (S.Sheet.meaning sheet.now) }
{
    if !(1..=256).contains(&sheet.switches()) {
        return Err(Layer::Writer.fault(Cause::SwitchCount, 0, 0));
    }
    let records = count_records(sheet)?;
    if records > 1024 {
        return Err(Layer::Writer.fault(Cause::TooManyRecords, 0, 0));
    }
    Ok(records)
}
