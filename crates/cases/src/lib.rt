// Sheets at the edges of what is lawful, made, told and written.
#![tactic(auto)]

#[cfg(test)]
mod made;
#[cfg(test)]
mod piles;
#[cfg(test)]
mod tables;
#[cfg(test)]
mod written;
