// Rules over numbered switches: what they are, which are lawful, and why one is refused.
#![tactic(auto)]

pub mod building;
pub mod checks;
pub mod clauses;
pub mod faults;
pub mod kinds;
pub mod literals;
pub mod parities;
pub mod rows;
pub mod rule;
pub mod telling;
