// The search for the earliest setting that keeps a reduced system of clauses and rows: forcing, tries, and going on by a budget.
#![tactic(auto)]

pub mod clauses;
pub mod forcing;
pub mod looking;
pub mod progress;
pub mod rows;
pub mod search;
pub mod searching;
pub mod state;
pub mod system;
pub mod tries;
pub mod values;
