// Parity rules: an even or an odd number of their switches is on.
ghost use Rattle.std.specs.Prelude.{◌≡◌, ◌+◌, ◌<◌, ◌≤◌, [], ◌∷◌, ◌++◌, nat_lt};

use crate::kinds::{RuleKind, Side};

// A rule of at most N switches. They are the first `width` of the array; what lies behind them means nothing. The rule is a value of fixed size, so that it can be copied and be put where memory was taken before.
#[derive(Clone, Copy)]
pub struct ParityRule<const N: usize> {
    pub switches: [u16; N],
    pub width: usize,
    pub side: Side,
    ghost fits: { width ≤ N },
}

// A parity rule of a sheet.
pub type Parity = ParityRule<16>;

impl<const N: usize> ParityRule<N> {
    ghost use Rattle.rules.specs.Views.{switches_of};

    // The rule on no switches yet.
    pub fn on_none(side: Side) -> ParityRule<N>
        ensures none { switches_of result ≡ [] }
        ensures width { result.width ≡ 0 }
        ensures side { result.side ≡ side }
    {
        ParityRule {
            switches: [0; N],
            width: 0,
            side,
        }
    }

    // The switches that the rule is on.
    pub fn switches(&self) -> &[u16]
        ensures { result.now ≡ switches_of self.now }
    {
        // Of the whole slice, whose length is known.
        let all = &self.switches[..];
        &all[0..self.width]
    }

    // One more switch, where there is room for it, and whether there was. A rule of N switches stays as it is.
    pub fn push(&mut self, switch: u16) -> bool
        ensures room { result ≡ nat_lt self.old.width N }
        ensures more { self.old.width < N → switches_of self.new ≡ switches_of self.old ++ switch ∷ [] }
        ensures width { self.old.width < N → self.new.width ≡ self.old.width + 1 }
        ensures side { self.new.side ≡ self.old.side }
        ensures full { N ≤ self.old.width → self.new ≡ self.old }
    {
        if self.width >= N {
            return false;
        }
        self.switches[self.width] = switch;
        self.width += 1;
        true
    }
}

impl RuleKind for Parity {
    const WIDTH: usize = 16;

    ghost WIDTH = { 16 };
}
