// The two lines of a report.
ghost use Rattle.std.specs.Prelude.{Some};
ghost use Rattle.std.specs.List.{flat_map};
ghost use Rattle.session.specs.Ends.{end_in};
ghost use Rattle.report.specs.Lines.{freedom_text, value_text, end_line, report_lines};

use session::ends::{End, Settled};
use std::fmt;
use text::each::write_each;

// The freedom: a number, or - where it is absent.
#[derive(Clone, Copy)]
pub struct Freedom(pub Option<usize>);

impl fmt::Display for Freedom {
    ghost output = { λ f. Some (freedom_text f.0) };

    fn fmt<W: fmt::Write>(&self, f: &mut fmt::Formatter<W>) -> fmt::Result {
        match self.0 {
            Some(freedom) => write!(f, "{freedom}"),
            None => f.write_str("-"),
        }
    }
}

// A value: 1 for on, 0 for off.
#[derive(Clone, Copy)]
struct Value(bool);

impl fmt::Display for Value {
    ghost output = { λ v. Some (value_text v.0) };

    fn fmt<W: fmt::Write>(&self, f: &mut fmt::Formatter<W>) -> fmt::Result {
        f.write_str(if self.0 { "1" } else { "0" })
    }
}

// Values, switch 1 first.
#[derive(Clone, Copy)]
struct Values<'a>(&'a [bool]);

impl fmt::Display for Values<'_> {
    ghost output = { λ vs. Some (flat_map value_text vs.0.now) };

    fn fmt<W: fmt::Write>(&self, f: &mut fmt::Formatter<W>) -> fmt::Result {
        write_each(f, self.0.iter().map(|on| Value(*on)))
    }
}

// How a settle ended, and its tries; then the values that it found.
#[derive(Clone, Copy)]
pub struct Ended<'a>(pub &'a Settled);

impl fmt::Display for Ended<'_> {
    ghost output = { λ e. Some (end_line (end_in e.0.now.end) e.0.now.tries) };

    fn fmt<W: fmt::Write>(&self, f: &mut fmt::Formatter<W>) -> fmt::Result {
        let tries = self.0.tries;
        match &self.0.end {
            End::Spent => writeln!(f, "spent {tries}"),
            End::None => writeln!(f, "none {tries}"),
            End::Found(setting) => writeln!(f, "found {tries} {}", Values(setting.values())),
        }
    }
}

// The number of switches and of rules, and the freedom; then how the settle ended.
#[derive(Clone, Copy)]
pub(crate) struct Report<'a> {
    pub(crate) switches: u16,
    pub(crate) rules: usize,
    pub(crate) freedom: Option<usize>,
    pub(crate) settled: &'a Settled,
}

impl fmt::Display for Report<'_> {
    ghost output = { λ r. Some
        (report_lines r.switches r.rules r.freedom (end_in r.settled.now.end) r.settled.now.tries) };

    fn fmt<W: fmt::Write>(&self, f: &mut fmt::Formatter<W>) -> fmt::Result {
        let n = self.switches;
        let m = self.rules;
        let freedom = Freedom(self.freedom);
        let ended = Ended(self.settled);
        write!(f, "V {n} R {m} F {freedom}\n{ended}")
    }
}
