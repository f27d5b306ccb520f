// The text of a sheet: a head, and a line for each rule.
ghost use Rattle.std.specs.Prelude.{Some, map};
ghost use Rattle.std.specs.List.{flat_map};
ghost use Rattle.rules.specs.Constraints.{positive};
ghost use Rattle.rules.specs.Views.{constraint};
ghost use Rattle.text.specs.Lent.{WrittenOr};
ghost use Rattle.cnf.specs.Dimacs.{entry_text, prefix, rule_line, cnf_text};

use rules::kinds::{Kind, Side};
use rules::literals::Literal;
use rules::rule::Rule;
use sheets::rules_of::Rules;
use sheets::sheet::Sheet;
use std::alloc::Global;
use std::fmt;
use text::each::write_each;
use text::errors::TextError;
use text::lent::write_text;

// A literal as a number with its sign, and a space.
#[derive(Clone, Copy)]
struct Entry(Literal);

impl fmt::Display for Entry {
    ghost output = { λ e. Some (entry_text e.0) };

    fn fmt<W: fmt::Write>(&self, f: &mut fmt::Formatter<W>) -> fmt::Result {
        let Literal { switch, on } = self.0;
        if on {
            write!(f, "{switch} ")
        } else {
            write!(f, "-{switch} ")
        }
    }
}

// Literals, one behind the other.
#[derive(Clone, Copy)]
struct Literals<'a>(&'a [Literal]);

impl fmt::Display for Literals<'_> {
    ghost output = { λ ls. Some (flat_map entry_text ls.0.now) };

    fn fmt<W: fmt::Write>(&self, f: &mut fmt::Formatter<W>) -> fmt::Result {
        write_each(f, self.0.iter().map(|literal| Entry(*literal)))
    }
}

// Switches, as their positive literals.
#[derive(Clone, Copy)]
struct Switches<'a>(&'a [u16]);

impl fmt::Display for Switches<'_> {
    ghost output = { λ vs. Some (flat_map entry_text (map positive vs.0.now)) };

    fn fmt<W: fmt::Write>(&self, f: &mut fmt::Formatter<W>) -> fmt::Result {
        write_each(
            f,
            self.0.iter().map(|switch| {
                Entry(Literal {
                    switch: *switch,
                    on: true,
                })
            }),
        )
    }
}

// What the line of a rule opens with: nothing for a clause, x for an odd parity rule, x- for an even one.
#[derive(Clone, Copy)]
struct Opening(Kind);

impl fmt::Display for Opening {
    ghost output = { λ o. Some (prefix o.0) };

    fn fmt<W: fmt::Write>(&self, f: &mut fmt::Formatter<W>) -> fmt::Result {
        f.write_str(match self.0 {
            Kind::Clause => "",
            Kind::Parity(Side::Odd) => "x",
            Kind::Parity(Side::Even) => "x-",
        })
    }
}

// The line of a rule.
#[derive(Clone, Copy)]
struct Line(Rule);

impl fmt::Display for Line {
    ghost output = { λ l. Some (rule_line (constraint l.0)) };

    fn fmt<W: fmt::Write>(&self, f: &mut fmt::Formatter<W>) -> fmt::Result {
        let opening = Opening(self.0.kind());
        match &self.0 {
            Rule::Clause(clause) => writeln!(f, "{opening}{}0", Literals(clause.literals())),
            Rule::Parity(parity) => writeln!(f, "{opening}{}0", Switches(parity.switches())),
        }
    }
}

// A sheet in DIMACS CNF.
#[derive(Clone, Copy)]
struct Dimacs<'a, S>(&'a S);

impl<S: Sheet> fmt::Display for Dimacs<'_, S> {
    ghost output = { λ d. Some (cnf_text (S.Sheet.meaning d.0.now)) };

    fn fmt<W: fmt::Write>(&self, f: &mut fmt::Formatter<W>) -> fmt::Result {
        let n = self.0.switches();
        let m = self.0.count();
        writeln!(f, "p cnf {n} {m}")?;
        write_each(f, Rules::of(self.0).map(Line))
    }
}

// The sheet in DIMACS CNF at the front of the buffer; its length is told, and the buffer beyond is left.
pub fn write_cnf<S: Sheet>(heap: Global, sheet: &S, out: &mut [u8]) -> Result<usize, TextError>
    ensures { WrittenOr (cnf_text (S.Sheet.meaning sheet.now)) out.old out.new result }
{
    write_text(heap, Dimacs(sheet), out)
}
