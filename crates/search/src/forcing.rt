// Forcing until a rule is dead or nothing is forced.
ghost use Rattle.std.specs.Prelude.{map};
ghost use Rattle.search_theory.specs.Forcing.{Over};
ghost use Rattle.search.specs.Values.{part_of};
ghost use Rattle.search.specs.Moves.{rules_of, Moves, Ends, GoesOn};

use crate::looking::{Dead, Forcing, first_forced};
use crate::system::System;
use crate::values::PartSetting;

// Sets what the next rule from an index on forces, and gives the index with which forcing goes on: that of the rule behind the one
// that forced, or the first one's where the pass did not begin there. All rules are quiet where a pass from the first one meets nothing.
// The rules are a lent slice, so a clause says of them what the invariant of a system gives.
fn force_next<R: Forcing>(
    rules: &[R],
    from: usize,
    part: &mut PartSetting,
) -> Result<Option<usize>, Dead>
    requires { Over 256 (map R.Forcing.constraint rules.now) }
    ensures moves { Moves (map R.Forcing.constraint rules.now) part.old part.new }
    ensures goes { GoesOn result (map R.Forcing.constraint rules.now) from part.old part.new }
{
    match first_forced(rules, from, part)? {
        Some(forced) => {
            part.put(forced.literal);
            Ok(Some(forced.at + 1))
        }
        None if from == 0 => Ok(None),
        None => Ok(Some(0)),
    }
}

// Forces by rules of one kind alone.
fn force_alone<R: Forcing>(rules: &[R], part: &mut PartSetting) -> Result<(), Dead>
    requires { Over 256 (map R.Forcing.constraint rules.now) }
    ensures moves { Moves (map R.Forcing.constraint rules.now) part.old part.new }
    ensures ends { Ends result (map R.Forcing.constraint rules.now) (part_of part.new) }
{
    let mut from = 0;
    while let Some(next) = force_next(rules, from, part)? {
        from = next;
    }
    Ok(())
}

// Forces by all rules of a system. The rows come first, until they are quiet, and again after each clause that forced.
pub(crate) fn force(system: &System, part: &mut PartSetting) -> Result<(), Dead>
    ensures moves { Moves (rules_of system.now) part.old part.new }
    ensures ends { Ends result (rules_of system.now) (part_of part.new) }
{
    let mut from = 0;
    loop {
        force_alone(system.rows.as_slice(), part)?;
        match force_next(system.clauses.as_slice(), from, part)? {
            Some(next) => from = next,
            None => return Ok(()),
        }
    }
}
