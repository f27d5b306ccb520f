// The rules of one sheet followed by those of another.
ghost use Rattle.std.specs.Prelude.{◌≡◌};
ghost use Rattle.std.specs.List.{slice_get};
ghost use Rattle.sheets.specs.Piles.{is_short, pair_check, paired};
ghost use Rattle.sheets.specs.Joins.{paired_lawful};
ghost use Rattle.sheets.specs.Places.{rule_in};

use crate::sheet::Sheet;
use rules::faults::{Cause, Fault, Layer};
use rules::kinds::Kind;
use rules::literals::Literal;

#[derive(Drop)]
pub struct Pair<F, G> {
    pub first: F,
    pub second: G,
}

// Where a rule of a pair stands: in which of its sheets, and as which of that sheet's rules.
#[derive(Clone, Copy)]
enum Place {
    First(usize),
    Second(usize),
}

impl<F: Sheet, G: Sheet> Pair<F, G> {
    fn is_short(&self) -> bool
        ensures { result ≡ is_short (F.Sheet.meaning self.now.first) (G.Sheet.meaning self.now.second) }
    {
        self.first.count() + self.second.count() <= 2048
    }

    // Where rule i stands; nowhere, where the pair is blank.
    fn place(&self, i: usize) -> Option<Place>
        ensures { rule_in (F.Sheet.meaning self.now.first) (G.Sheet.meaning self.now.second) result ≡ slice_get (paired (F.Sheet.meaning self.now.first) (G.Sheet.meaning self.now.second)).rules i }
    {
        if !self.is_short() {
            return None;
        }
        match i.checked_sub(self.first.count()) {
            Some(k) => Some(Place::Second(k)),
            None => Some(Place::First(i)),
        }
    }

    // Refused where the rules would pass 2,048; the sheet is then blank. The check of a placing differs in its test and its cause.
    pub fn check(&self) -> Result<(), Fault>
        ensures { result ≡ pair_check (F.Sheet.meaning self.now.first) (G.Sheet.meaning self.now.second) }
    {
        if self.is_short() {
            Ok(())
        } else {
            Err(Layer::Pile.fault(Cause::PairTooLong, 0, 0))
        }
    }
}

impl<F: Sheet, G: Sheet> Sheet for Pair<F, G> {
    ghost meaning = { λ p. paired (F.Sheet.meaning p.first) (G.Sheet.meaning p.second) };

    ghost lawful = { λ s. paired_lawful (F.Sheet.meaning s.first) (G.Sheet.meaning s.second) (F.Sheet.lawful s.first) (G.Sheet.lawful s.second) };

    // A number and no option, here and in `count`: `if` says it most plainly.
    fn switches(&self) -> u16 {
        if self.is_short() {
            self.first.switches().max(self.second.switches())
        } else {
            0
        }
    }

    fn count(&self) -> usize {
        if self.is_short() {
            self.first.count() + self.second.count()
        } else {
            0
        }
    }

    fn kind(&self, i: usize) -> Option<Kind> {
        match self.place(i)? {
            Place::First(k) => self.first.kind(k),
            Place::Second(k) => self.second.kind(k),
        }
    }

    fn entry(&self, i: usize, j: usize) -> Option<Literal> {
        match self.place(i)? {
            Place::First(k) => self.first.entry(k, j),
            Place::Second(k) => self.second.entry(k, j),
        }
    }
}
