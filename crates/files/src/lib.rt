// Files of rules, of either generation: checked, and read into a table.
#![tactic(auto)]

pub mod any;
mod example;
pub mod first_year;
mod numbers;
pub mod reading;
pub mod records;
mod sequence;
pub mod third_year;
