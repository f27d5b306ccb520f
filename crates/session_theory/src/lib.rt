// A session over a sheet: what its calls are, and what holds through all of them.
// The functions compute nothing; their contracts bear the theorems.
#![tactic(auto)]

ghost use Rattle.session_theory.specs.System.{SystemsRight};
ghost use Rattle.session_theory.specs.Law.{Law, CallsLawful};
ghost use Rattle.session_theory.specs.Worked.{Worked};

// The system on which the search works is reduced, and the same settings keep it as the rules.
pub fn systems_right()
    ensures { SystemsRight }
{}

// Whatever is called on a session: a settle finds the earliest setting that keeps the rules then standing or tells that there is none,
// or its budget is spent; a copy writes what was found.
pub fn law_holds()
    ensures { Law }
{}

// The same for one call after any others.
pub fn calls_lawful()
    ensures { CallsLawful }
{}

// Small sessions, computed.
#[tactic(auto, unfolding(rules::specs::First::first_of, rules::specs::First::some_below))]
pub fn worked_examples()
    ensures { Worked }
{}
