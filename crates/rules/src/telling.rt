// What a rule tells: its kind and its entries.
ghost use Rattle.std.specs.Prelude.{◌≡◌};
ghost use Rattle.rules.specs.Constraints.{kind};
ghost use Rattle.rules.specs.Views.{constraint, entry_at};

use crate::kinds::Kind;
use crate::literals::Literal;
use crate::rule::Rule;

impl Rule {
    // The kind, with the side.
    pub fn kind(&self) -> Kind
        ensures { result ≡ kind (constraint self.now) }
    {
        match self {
            Rule::Clause(_clause) => Kind::Clause,
            Rule::Parity(parity) => Kind::Parity(parity.side),
        }
    }

    // Entry j, absent past the end; a switch of a parity rule is told as its positive literal.
    pub fn entry(&self, j: usize) -> Option<Literal>
        ensures { result ≡ entry_at (constraint self.now) j }
    {
        match self {
            Rule::Clause(clause) => clause.literals().get(j).copied(),
            Rule::Parity(parity) => parity.switches().get(j).map(|switch| Literal {
                switch: *switch,
                on: true,
            }),
        }
    }
}
