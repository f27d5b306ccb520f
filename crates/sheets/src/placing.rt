// A sheet with a number added to each switch number.
ghost use Rattle.std.specs.Prelude.{◌≡◌, true, false, MatchOption};
ghost use Rattle.sheets.specs.Piles.{has_room, placing_check, placed};
ghost use Rattle.sheets.specs.Shifts.{placed_lawful};

use crate::sheet::Sheet;
use rules::faults::{Cause, Fault, Layer};
use rules::kinds::Kind;
use rules::literals::Literal;

#[derive(Drop)]
pub struct Placing<S> {
    pub below: S,
    pub by: u16,
}

impl<S: Sheet> Placing<S> {
    fn has_room(&self) -> bool
        ensures { result ≡ has_room (S.Sheet.meaning self.now.below) self.now.by }
    {
        self.below.switches() as u32 + self.by as u32 <= 256
    }

    // The sheet below, where its switches have room.
    fn with_room(&self) -> Option<&S>
        ensures { MatchOption result (has_room (S.Sheet.meaning self.now.below) self.now.by ≡ false) (λ below. (has_room (S.Sheet.meaning self.now.below) self.now.by ≡ true) × (below.now ≡ self.now.below)) }
    {
        self.has_room().then_some(&self.below)
    }

    // Refused where the switches would pass 256; the sheet is then blank. The check of a pair differs in its test and its cause.
    pub fn check(&self) -> Result<(), Fault>
        ensures { result ≡ placing_check (S.Sheet.meaning self.now.below) self.now.by }
    {
        if self.has_room() {
            Ok(())
        } else {
            Err(Layer::Pile.fault(Cause::PlacedTooHigh, 0, 0))
        }
    }
}

impl<S: Sheet> Sheet for Placing<S> {
    ghost meaning = { λ p. placed (S.Sheet.meaning p.below) p.by };

    ghost lawful = { λ s. placed_lawful (S.Sheet.meaning s.below) s.by (S.Sheet.lawful s.below) };

    fn switches(&self) -> u16 {
        self.with_room()
            .map_or(0, |below| below.switches() + self.by)
    }

    fn count(&self) -> usize {
        self.with_room().map_or(0, |below| below.count())
    }

    fn kind(&self, i: usize) -> Option<Kind> {
        self.with_room()?.kind(i)
    }

    fn entry(&self, i: usize, j: usize) -> Option<Literal> {
        let literal = self.with_room()?.entry(i, j)?;
        Some(Literal {
            switch: literal.switch + self.by,
            on: literal.on,
        })
    }
}
