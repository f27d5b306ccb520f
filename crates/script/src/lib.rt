// Scripts: a sheet and calls of a session as bytes, read, carried out and answered in lines of text.
#![tactic(auto)]

pub mod answering;
pub mod errors;
pub mod head;
mod lines;
pub mod reading;
