// Clauses: at least one of their literals is kept.
ghost use Rattle.std.specs.Prelude.{◌≡◌, ◌+◌, ◌<◌, ◌≤◌, [], ◌∷◌, ◌++◌, nat_lt};

use crate::kinds::RuleKind;
use crate::literals::Literal;

// The literals are the first `width` of the array; what lies behind them means nothing. The clause is a value of fixed size, as a parity rule is.
#[derive(Clone, Copy)]
pub struct Clause {
    pub literals: [Literal; 8],
    pub width: usize,
    ghost fits: { width ≤ 8 },
}

impl Clause {
    ghost use Rattle.rules.specs.Views.{literals_of};

    // The clause of no literals yet.
    pub fn new() -> Clause
        ensures none { literals_of result ≡ [] }
        ensures width { result.width ≡ 0 }
    {
        Clause {
            literals: [Literal {
                switch: 0,
                on: false,
            }; 8],
            width: 0,
        }
    }

    // The literals of which one is to be kept.
    pub fn literals(&self) -> &[Literal]
        ensures { result.now ≡ literals_of self.now }
    {
        &self.literals[0..self.width]
    }

    // One more literal, where there is room for it, and whether there was. A clause of eight literals stays as it is.
    pub fn push(&mut self, literal: Literal) -> bool
        ensures room { result ≡ nat_lt self.old.width 8 }
        ensures more { self.old.width < 8 → literals_of self.new ≡ literals_of self.old ++ literal ∷ [] }
        ensures width { self.old.width < 8 → self.new.width ≡ self.old.width + 1 }
        ensures full { 8 ≤ self.old.width → self.new ≡ self.old }
    {
        if self.width >= 8 {
            return false;
        }
        self.literals[self.width] = literal;
        self.width += 1;
        true
    }
}

impl RuleKind for Clause {
    const WIDTH: usize = 8;

    ghost WIDTH = { 8 };
}
