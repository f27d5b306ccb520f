// Searches.
ghost use Rattle.search.specs.Moves.{rules_of};
ghost use Rattle.search.specs.States.{Standing};

use crate::state::State;
use crate::system::System;

// A search over a system. It may be left at any time and taken up again.
#[derive(Drop)]
pub struct Search {
    pub(crate) system: System,
    pub(crate) state: State,
    ghost stands: { ∥ Standing system.switches (rules_of system) state ∥₁ },
}
