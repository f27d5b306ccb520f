// A rule of either kind.
use crate::clauses::Clause;
use crate::parities::Parity;

#[derive(Clone, Copy)]
pub enum Rule {
    Clause(Clause),
    Parity(Parity),
}
