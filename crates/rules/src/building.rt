// A rule built from the entries that came from outside, or what is wrong with it.
ghost use Rattle.std.specs.Prelude.{◌≡◌, ◌≤◌, ◌&&◌, map, length, IfOk, nat_eq, nat_le};
ghost use Rattle.std.specs.List.{list_any};
ghost use Rattle.rules.specs.First.{verdict, on_ok};
ghost use Rattle.rules.specs.Lawful.{width_fits, Lawful};
ghost use Rattle.rules.specs.Entries.{literal, named_switch, literal_fits, named, entries_misfit, built};
ghost use Rattle.rules.specs.Views.{literals_of, switches_of, constraint};

use crate::clauses::Clause;
use crate::faults::{Cause, Misfit};
use crate::kinds::{Kind, RuleKind, Side};
use crate::literals::Literal;
use crate::parities::Parity;
use crate::rule::Rule;

fn fits<K: RuleKind>(width: usize) -> bool
    ensures { result ≡ (nat_le 1 width && nat_le width K.RuleKind.WIDTH) }
{
    1 <= width && width <= K::WIDTH
}

// The width is one that a rule of the kind may have. One arm for each kind, since the width is a constant of its type.
pub fn width_fits(kind: Kind, width: usize) -> bool
    ensures { result ≡ width_fits kind width }
{
    match kind {
        Kind::Clause => fits::<Clause>(width),
        Kind::Parity(_side) => fits::<Parity>(width),
    }
}

fn is_fitting(kind: Kind, n: u16, literal: Literal) -> bool
    ensures { result ≡ literal_fits kind n literal }
{
    if !(1..=n).contains(&literal.switch) {
        return false;
    }
    match kind {
        Kind::Clause => true,
        Kind::Parity(_side) => literal.on,
    }
}

fn names(entry: i16, switch: u16) -> bool
    ensures { result ≡ nat_eq (named_switch entry) switch }
{
    Literal::from(entry).switch == switch
}

// One of the entries names the switch.
fn is_named(entries: &[i16], switch: u16) -> bool
    ensures { result ≡ list_any (λ e. nat_eq (named_switch e) switch) entries.now }
{
    entries.iter().any(|entry| names(*entry, switch))
}

fn check_entries(kind: Kind, n: u16, entries: &[i16]) -> Result<(), Misfit>
    ensures { result ≡ verdict (entries_misfit kind n entries.now) tt }
{
    // The index is the place of a fault, and the first fault ends the check.
    for (i, entry) in entries.iter().enumerate() {
        let literal = Literal::from(*entry);
        if !is_fitting(kind, n, literal) {
            return Err(Misfit {
                cause: Cause::Entry,
                index: i,
            });
        }
        if is_named(&entries[..i], literal.switch) {
            return Err(Misfit {
                cause: Cause::Repeat,
                index: i,
            });
        }
    }
    Ok(())
}

fn clause_of(entries: &[i16]) -> Clause
    requires { length entries.now ≤ 8 }
    ensures { literals_of result ≡ map literal entries.now }
{
    let mut clause = Clause::new();
    for entry in entries {
        clause.push(Literal::from(*entry));
    }
    clause
}

fn parity_of(entries: &[i16], side: Side) -> Parity
    requires { length entries.now ≤ 16 }
    ensures switches { switches_of result ≡ map named_switch entries.now }
    ensures side { result.side ≡ side }
{
    let mut parity = Parity::on_none(side);
    for entry in entries {
        parity.push(Literal::from(*entry).switch);
    }
    parity
}

// The rule of the kind over n switches with these entries, or the first thing wrong: its width, then its entries from the first to the last.
// The three are the question as it is asked.
pub fn build_rule(kind: Kind, n: u16, entries: &[i16]) -> Result<Rule, Misfit>
    ensures value { on_ok constraint result ≡ built kind n entries.now }
    ensures lawful { IfOk result (λ rule. Lawful n (constraint rule)) }
{
    if !width_fits(kind, entries.len()) {
        return Err(Misfit {
            cause: Cause::Width,
            index: 0,
        });
    }
    check_entries(kind, n, entries)?;
    match kind {
        Kind::Clause => Ok(Rule::Clause(clause_of(entries))),
        Kind::Parity(side) => Ok(Rule::Parity(parity_of(entries, side))),
    }
}
