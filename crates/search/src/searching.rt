// What can be done with a search.
ghost use Rattle.std.specs.Prelude.{◌≡◌, ◌<◌, Bool, List, Some};
ghost use Rattle.rules.specs.Settings.{Within, setting};
ghost use Rattle.search_theory.specs.Tries.{found, due};
ghost use Rattle.search_theory.specs.Courses.{next_in, begin};
ghost use Rattle.search.specs.Moves.{rules_of};
ghost use Rattle.search.specs.Stacks.{stack_of};
ghost use Rattle.search.specs.Ends.{WentOn, Tells};
ghost use Rattle.search.specs.Searches.{course_of, shown, Makes, Nexts};

use crate::looking::Dead;
use crate::progress::{End, Progress};
use crate::search::Search;
use crate::state::State;
use crate::system::System;
use rules::literals::Literal;

// A try that is due: a switch at off, or the try at an index turned to on. They are two variants, since only a turn undoes what was set.
#[derive(Clone, Copy)]
pub enum Due {
    Add(u16),
    Turn(usize),
}

impl Search {
    // Sets what is forced with nothing set. No try is made yet.
    pub fn new(system: System) -> Search
        ensures course { course_of result ≡ begin system.switches (Some (rules_of system)) }
        ensures same { result.system ≡ system }
    {
        let state = State::begin(&system);
        Search { system, state }
    }

    // The try that is due: where a rule is dead, the latest try at off turned, and else the lowest switch that is unset, at off.
    // Where none is due, the end of the search.
    fn next(&self) -> Result<Due, End<()>>
        ensures { Nexts result self.now }
    {
        match self.state.forced {
            Err(Dead) => self
                .state
                .tries
                .latest_off()
                .map(Due::Turn)
                .ok_or(End::None),
            Ok(()) => self
                .state
                .part
                .lowest_unset(self.system.switches)
                .map(Due::Add)
                .ok_or(End::Found(())),
        }
    }

    // Tries a switch at off.
    fn try_off(&mut self, switch: u16)
        requires { Makes (Due.Add switch) self.old }
        ensures same { self.new.system ≡ self.old.system }
        ensures follows { course_of self.old ≡ due (stack_of self.new.state.tries) }
    {
        self.state.tries.add(switch);
        self.state
            .follow(&self.system, Literal { switch, on: false });
    }

    // Turns the try at an index to on. All that was set since it was made is undone first.
    fn turn_on(&mut self, at: usize)
        requires { Makes (Due.Turn at) self.old }
        ensures same { self.new.system ≡ self.old.system }
        ensures follows { course_of self.old ≡ due (stack_of self.new.state.tries) }
    {
        let switch = self.state.tries.table[at].switch;
        self.state.tries.turn_at(at);
        self.state.part.back_to(at as u16);
        self.state
            .follow(&self.system, Literal { switch, on: true });
    }

    // Makes the try that is due. What is due is a value, since it is also asked for without being made.
    fn make(&mut self, next: Due)
        requires { Makes next self.old }
        ensures same { self.new.system ≡ self.old.system }
        ensures follows { course_of self.old ≡ due (stack_of self.new.state.tries) }
    {
        match next {
            Due::Add(switch) => self.try_off(switch),
            Due::Turn(at) => self.turn_on(at),
        }
    }

    // Goes on for at most so many tries.
    pub fn go_on(&mut self, budget: u32) -> Progress<()>
        ensures goes { WentOn (next_in self.old.system.switches (Some (rules_of self.old.system))) budget (course_of self.old) (course_of self.new) result }
        ensures tells { Tells result.end self.old.system.switches (rules_of self.old.system) (shown self.new) (course_of self.new) }
        ensures same { self.new.system ≡ self.old.system }
    {
        for tries in 0..budget {
            match self.next() {
                Ok(due) => self.make(due),
                Err(end) => return Progress { end, tries },
            }
        }
        let end = self.next().err().unwrap_or(End::Spent);
        Progress { end, tries: budget }
    }

    // The value of a switch, where it is set. Where a setting is found, this is its value.
    pub fn value(&self, switch: u16) -> Option<bool>
        ensures shown { result ≡ shown self.now switch }
        ensures found { (s : List Bool) → course_of self.now ≡ found s → Within self.now.system.switches switch → result ≡ Some (setting s switch) }
    {
        if !(1..=256).contains(&switch) {
            return None;
        }
        self.state.part.get(switch)
    }

    // Ends the search and gives its system back.
    pub fn into_system(self) -> System
        ensures { result ≡ self.system }
    {
        self.system
    }
}
