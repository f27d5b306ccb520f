// The rules of a sheet, as values.
ghost use Rattle.std.specs.Prelude.{◌≡◌, Some};
ghost use Rattle.std.specs.List.{slice_get};
ghost use Rattle.std.specs.Option.{option_map};
ghost use Rattle.std.specs.Iterator.{YieldsFirstBy, item_count};
ghost use Rattle.rules.specs.Views.{clause_constraint, row_constraint, constraint};
ghost use Rattle.sheets.specs.Meaning.{told_kind};
ghost use Rattle.sheets.specs.Left.{rules_left};

use crate::sheet::Sheet;
use rules::clauses::Clause;
use rules::kinds::{Kind, Side};
use rules::literals::Literal;
use rules::parities::Parity;
use rules::rule::Rule;

// Rule i, which is a clause. It keeps the literals that are told, and a parity rule keeps their switches, so each has its own loop.
// Both fill an array by an index that counts to its length: pushed one by one, a sheet was written in 1.6 times as long.
fn clause_at<S: Sheet>(sheet: &S, i: usize) -> Clause
    requires { told_kind (S.Sheet.meaning sheet.now) i ≡ Some Kind.Clause }
    ensures { Some (clause_constraint result) ≡ slice_get (S.Sheet.meaning sheet.now).rules i }
{
    let mut literals = [Literal {
        switch: 0,
        on: false,
    }; 8];
    for j in 0..8usize {
        match sheet.entry(i, j) {
            Some(literal) => literals[j] = literal,
            None => return Clause { literals, width: j },
        }
    }
    Clause { literals, width: 8 }
}

// Rule i, which is a parity rule of the side.
fn parity_at<S: Sheet>(sheet: &S, i: usize, side: Side) -> Parity
    requires { told_kind (S.Sheet.meaning sheet.now) i ≡ Some (Kind.Parity side) }
    ensures { Some (row_constraint result) ≡ slice_get (S.Sheet.meaning sheet.now).rules i }
{
    let mut switches = [0; 16];
    for j in 0..16usize {
        match sheet.entry(i, j) {
            Some(literal) => switches[j] = literal.switch,
            None => {
                return Parity {
                    switches,
                    width: j,
                    side,
                };
            }
        }
    }
    Parity {
        switches,
        width: 16,
        side,
    }
}

// Rule i; absent exactly where i is the number of rules or more.
pub fn rule_at<S: Sheet>(sheet: &S, i: usize) -> Option<Rule>
    ensures { option_map constraint result ≡ slice_get (S.Sheet.meaning sheet.now).rules i }
{
    match sheet.kind(i)? {
        Kind::Clause => Some(Rule::Clause(clause_at(sheet, i))),
        Kind::Parity(side) => Some(Rule::Parity(parity_at(sheet, i, side))),
    }
}

// The rules of a sheet, from the first to the last.
#[derive(Drop)]
pub struct Rules<'a, S> {
    sheet: &'a S,
    next: usize,
}

impl<'a, S: Sheet> Rules<'a, S> {
    // All rules of the sheet.
    pub fn of(sheet: &'a S) -> Rules<'a, S>
        ensures { rules_left S.Sheet.meaning result ≡ (S.Sheet.meaning sheet.now).rules }
    {
        Rules { sheet, next: 0 }
    }
}

impl<'a, S: Sheet> Iterator for Rules<'a, S> {
    type Item = Rule;

    ghost next_gives = { YieldsFirstBy constraint (rules_left S.Sheet.meaning) };

    ghost remaining = { item_count (rules_left S.Sheet.meaning) };

    fn next(&mut self) -> Option<Rule> {
        let rule = rule_at(self.sheet, self.next)?;
        self.next += 1;
        Some(rule)
    }
}
