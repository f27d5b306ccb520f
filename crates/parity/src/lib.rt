// The parity rules that stand, reduced to rows, and the number of free switches.
#![tactic(auto)]

mod conversion;
mod elimination;
mod equations;
mod marking;
pub mod reduction;
mod sorted;
pub mod standing;
