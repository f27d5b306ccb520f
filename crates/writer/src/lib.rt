// The first-year writer: any sheet as a first-year file in a lent buffer.
#![tactic(auto)]

mod counting;
mod expansion;
pub mod first_year;
mod output;
mod patterns;
