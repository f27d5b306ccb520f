// The state of a search: what is set, the tries that stand, and how the last forcing ended.
ghost use Rattle.std.specs.Prelude.{◌≡◌};
ghost use Rattle.search.specs.Moves.{rules_of};
ghost use Rattle.search.specs.States.{Standing, Ready};

use crate::forcing::force;
use crate::looking::Dead;
use crate::system::System;
use crate::tries::Tries;
use crate::values::PartSetting;
use rules::literals::Literal;

#[derive(Drop)]
pub struct State {
    pub part: PartSetting,
    pub tries: Tries,
    pub forced: Result<(), Dead>,
}

impl State {
    // Nothing set and no tries, and then what is forced.
    pub(crate) fn begin(system: &System) -> State
        ensures stands { Standing system.now.switches (rules_of system.now) result }
        ensures none { result.tries.count ≡ 0 }
    {
        let mut part = PartSetting::new();
        let forced = force(system, &mut part);
        State {
            part,
            tries: Tries::new(),
            forced,
        }
    }

    // Sets the literal of the latest try, and what is then forced.
    pub(crate) fn follow(&mut self, system: &System, literal: Literal)
        requires { Ready system.now.switches (rules_of system.now) literal self.old }
        ensures stands { Standing system.now.switches (rules_of system.now) self.new }
        ensures same { self.new.tries ≡ self.old.tries }
    {
        self.part.level += 1;
        self.part.put(literal);
        self.forced = force(system, &mut self.part);
    }
}
