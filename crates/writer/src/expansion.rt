// Rules written out as the records of clauses.
ghost use Rattle.std.specs.Prelude.{◌≡◌, ◌≤◌, true, length};
ghost use Rattle.std.specs.List.{flat_map};
ghost use Rattle.rules.specs.Constraints.{clause, parity};
ghost use Rattle.rules.specs.First.{every};
ghost use Rattle.rules.specs.Views.{literals_of, switches_of, constraint};
ghost use Rattle.writer.specs.Bytes.{low_high, literal_word, record_bytes};
ghost use Rattle.writer.specs.Expansion.{is_narrow};
ghost use Rattle.writer.specs.Writing.{rule_bytes};
ghost use Rattle.writer.specs.Output.{HasRoom, Puts};

use crate::output::Output;
use crate::patterns::{breaks, clause_against};
use rules::clauses::Clause;
use rules::literals::Literal;
use rules::parities::Parity;
use rules::rule::Rule;
use sheets::rules_of::Rules;
use sheets::sheet::Sheet;

// The two bytes of a slot: the literal in two's complement, the low byte first. No `From`: both types are of other crates.
fn slot_of(literal: Literal) -> [u8; 2]
    ensures { result ≡ low_high (literal_word literal) }
{
    if literal.on {
        literal.switch.to_le_bytes()
    } else {
        literal.switch.wrapping_neg().to_le_bytes()
    }
}

// The record of a clause; the slots behind its literals stay 0. It is made whole and then put: put slot by slot, a file took a quarter as long again.
fn record_of(literals: &[Literal]) -> [u8; 18]
    requires { length literals.now ≤ 8 }
    ensures { result ≡ record_bytes literals.now }
{
    let mut record = [0; 18];
    record[0] = b'C';
    record[1] = b'L';
    for (j, literal) in literals.iter().enumerate() {
        let [low, high] = slot_of(*literal);
        record[2 + 2 * j] = low;
        record[2 + 2 * j + 1] = high;
    }
    record
}

impl Output<'_> {
    // The record of a clause.
    fn put_clause(&mut self, clause: &Clause)
        requires { HasRoom (record_bytes (literals_of clause.now)) self.old }
        ensures { Puts (record_bytes (literals_of clause.now)) self.old self.new }
    {
        self.put(&record_of(clause.literals()));
    }

    // A parity rule, as one record for each pattern that breaks it, the patterns rising. They are numbers, and index nothing.
    fn put_parity(&mut self, rule: &Parity)
        requires narrow { length (switches_of rule.now) ≤ 5 }
        requires room { HasRoom (rule_bytes (parity (switches_of rule.now) rule.now.side)) self.old }
        ensures { Puts (rule_bytes (parity (switches_of rule.now) rule.now.side)) self.old self.new }
    {
        let named = rule.switches();
        for pattern in 0..1usize << named.len() {
            if breaks(rule.side, pattern) {
                self.put_clause(&clause_against(named, pattern));
            }
        }
    }

    fn put_rule(&mut self, rule: &Rule)
        requires narrow { is_narrow (constraint rule.now) ≡ true }
        requires room { HasRoom (rule_bytes (constraint rule.now)) self.old }
        ensures { Puts (rule_bytes (constraint rule.now)) self.old self.new }
    {
        match rule {
            Rule::Clause(clause) => self.put_clause(clause),
            Rule::Parity(parity) => self.put_parity(parity),
        }
    }

    // All rules of the sheet, in their order.
    pub(crate) fn put_rules<S: Sheet>(&mut self, sheet: &S)
        requires narrow { every is_narrow (S.Sheet.meaning sheet.now).rules ≡ true }
        requires room { HasRoom (flat_map rule_bytes (S.Sheet.meaning sheet.now).rules) self.old }
        ensures { Puts (flat_map rule_bytes (S.Sheet.meaning sheet.now).rules) self.old self.new }
    {
        for rule in Rules::of(sheet) {
            self.put_rule(&rule);
        }
    }
}
