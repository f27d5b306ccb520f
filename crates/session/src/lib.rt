// A session over any sheet: rules are taken into its margin, and settings that keep all rules are sought by a budget of tries.
#![tactic(auto)]

mod answering;
pub mod call;
pub mod calls;
mod copying;
pub mod driver;
pub mod ends;
mod events;
mod found;
pub mod opening;
pub mod phases;
mod restarting;
pub mod session;
mod writing;
