// What changes a session, and what it tells then.
use crate::ends::Settled;
use rules::faults::Fault;
use rules::kinds::RawKind;

// A rule of the kind and the entries is to be taken, or a settle with its budget.
#[derive(Clone, Copy)]
pub enum Event<'a> {
    Take(RawKind, &'a [i16]),
    Settle(u32),
}

// Whether the rule was taken, or how the settle ended. A take is always answered by the first, a settle by the second.
#[derive(Clone, Copy)]
pub enum Answer {
    Took(Result<(), Fault>),
    Settled(Settled),
}
