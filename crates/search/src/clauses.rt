// Clauses force: where all literals of a clause are broken but one, which is unset, that one must be kept.
ghost use Rattle.std.specs.Prelude.{◌≡◌};
ghost use Rattle.rules.specs.Settings.{Within};
ghost use Rattle.rules.specs.Constraints.{clause, switches, Each};
ghost use Rattle.rules.specs.Views.{clause_constraint};
ghost use Rattle.search.specs.Values.{part_of};
ghost use Rattle.search.specs.Looks.{look_at};
ghost use Rattle.search.specs.Passes.{forces_one};

use crate::looking::{Dead, Forcing};
use crate::values::PartSetting;
use rules::clauses::Clause;
use rules::literals::Literal;

// A clause is left at its first kept and at its second unset literal.
fn look_at_literals(literals: &[Literal], part: &PartSetting) -> Result<Option<Literal>, Dead>
    requires { Each (Within 256) (switches (clause literals.now)) }
    ensures { result ≡ look_at (part_of part.now) (clause literals.now) }
{
    let mut unset: Option<Literal> = None;
    for literal in literals {
        match part.get(literal.switch) {
            Some(on) if on == literal.on => return Ok(None),
            Some(_) => {}
            None if unset.is_some() => return Ok(None),
            None => unset = Some(*literal),
        }
    }
    unset.map(Some).ok_or(Dead)
}

impl Forcing for Clause {
    ghost constraint = { clause_constraint };

    ghost single = { λ x. forces_one (clause_constraint x) };

    fn look(&self, part: &PartSetting) -> Result<Option<Literal>, Dead> {
        look_at_literals(self.literals(), part)
    }
}
