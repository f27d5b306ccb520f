// Clauses as parity rules, and equations as rows.
ghost use Rattle.std.specs.Prelude.{◌≡◌, ◌≤◌, map, length};
ghost use Rattle.rules.specs.Constraints.{switch_of};
ghost use Rattle.rules.specs.Views.{switches_of, row_constraint};
ghost use Rattle.parity_theory.specs.Recovering.{side_of};
ghost use Rattle.parity_theory.specs.Reducing.{as_rule};
ghost use Rattle.parity.specs.Views.{solved_row};

use crate::equations::Solved;
use rules::kinds::Side;
use rules::literals::Literal;
use rules::parities::Parity;
use rules::rows::Row;

// The parity rule that a clause may belong to: it is odd, and each negation changes that.
pub(crate) fn parity_of(literals: &[Literal]) -> Parity
    requires { length literals.now ≤ 16 }
    ensures switches { switches_of result ≡ map switch_of literals.now }
    ensures side { result.side ≡ side_of literals.now }
{
    let odd = literals.iter().fold(true, |odd, literal| odd == literal.on);
    let mut parity = Parity::on_none(Side::from(odd));
    for literal in literals {
        parity.push(literal.switch);
    }
    parity
}

// The row: its dependent, then its other members from the highest down.
impl From<&Solved> for Row {
    ghost from_gives = { λ solved row. row_constraint row ≡ as_rule (solved_row solved.now) };

    fn from(solved: &Solved) -> Row {
        let mut row = Row::on_none(Side::from(solved.equation.odd));
        row.push(solved.index as u16 + 1);
        // The index is what is written, so the loop goes over the indices.
        for i in (0..solved.index).rev() {
            if solved.equation.members[i] {
                row.push(i as u16 + 1);
            }
        }
        row
    }
}
