// Sheets as DIMACS CNF, the text that stock solvers read.
#![tactic(auto)]

pub mod convert;
pub mod lines;
