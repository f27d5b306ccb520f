// Text for people and other programs: items printed in their order, the line that tells a refusal, and texts put into lent buffers.
#![tactic(auto)]

pub mod each;
pub mod errors;
pub mod lent;
pub mod refusals;
