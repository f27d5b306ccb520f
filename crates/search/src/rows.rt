// Rows force: where all switches of a row are set but one, that one must have the value that keeps the row.
ghost use Rattle.std.specs.Prelude.{◌≡◌};
ghost use Rattle.rules.specs.Settings.{Within};
ghost use Rattle.rules.specs.Constraints.{parity, switches as switches_of, Each};
ghost use Rattle.rules.specs.Views.{row_constraint};
ghost use Rattle.search.specs.Values.{part_of};
ghost use Rattle.search.specs.Looks.{look_at};
ghost use Rattle.search.specs.Passes.{forces_one};

use crate::looking::{Dead, Forcing};
use crate::values::PartSetting;
use rules::kinds::Side;
use rules::literals::Literal;
use rules::rows::Row;

// A row is left at its second unset switch. It lists its switches from the highest down, and low switches are set first.
fn look_at_switches(
    switches: &[u16],
    side: Side,
    part: &PartSetting,
) -> Result<Option<Literal>, Dead>
    requires { Each (Within 256) (switches_of (parity switches.now side)) }
    ensures { result ≡ look_at (part_of part.now) (parity switches.now side) }
{
    // whether an odd number of the switches that are unset or not yet read must be on
    let mut odd = side.is_odd();
    let mut unset: Option<u16> = None;
    for switch in switches {
        match part.get(*switch) {
            Some(on) => odd = odd != on,
            None if unset.is_some() => return Ok(None),
            None => unset = Some(*switch),
        }
    }
    match unset {
        Some(switch) => Ok(Some(Literal { switch, on: odd })),
        None if odd => Err(Dead),
        None => Ok(None),
    }
}

impl Forcing for Row {
    ghost constraint = { row_constraint };

    ghost single = { λ x. forces_one (row_constraint x) };

    fn look(&self, part: &PartSetting) -> Result<Option<Literal>, Dead> {
        look_at_switches(self.switches(), self.side, part)
    }
}
