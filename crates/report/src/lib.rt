// The report on a sheet file: its size, its freedom, and what its session settles on.
#![tactic(auto)]

pub mod lines;
pub mod reporting;
