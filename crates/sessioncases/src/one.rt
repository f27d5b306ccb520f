// A sheet of its own making: some switches, and the one rule that the first of them is on.
ghost use Rattle.std.specs.Prelude.{◌≤◌, [], ◌∷◌};
ghost use Rattle.rules.specs.Constraints.{clause, positive};
ghost use Rattle.std.proofs.Common.{rules};

use rules::kinds::Kind;
use rules::literals::Literal;
use sheets::sheet::Sheet;

#[derive(Drop)]
pub(crate) struct FirstOn {
    pub(crate) switches: u16,
    ghost some: { 1 ≤ switches },
    ghost few: { switches ≤ 256 },
}

impl Sheet for FirstOn {
    ghost meaning = { λ s. record { switches = s.switches; rules = clause (positive 1 ∷ []) ∷ [] } };

    ghost lawful = { λ s. record { narrow = s.few; short = Prim.search rules; sound = Prim.search rules } };

    fn switches(&self) -> u16 {
        self.switches
    }

    fn count(&self) -> usize {
        1
    }

    fn kind(&self, i: usize) -> Option<Kind> {
        (i == 0).then_some(Kind::Clause)
    }

    fn entry(&self, i: usize, j: usize) -> Option<Literal> {
        (i == 0 && j == 0).then_some(Literal {
            switch: 1,
            on: true,
        })
    }
}
