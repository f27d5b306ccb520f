// Sheets: what any of them tells, the table in memory, and the piles made of other sheets.
#![tactic(auto)]

pub mod pair;
pub mod placing;
pub mod raw;
pub mod rules_of;
pub mod sheet;
pub mod table;
pub mod tabling;
