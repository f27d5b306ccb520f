// Calls and replies as values.
use crate::ends::Settled;
use rules::faults::Fault;
use sheets::raw::RawRule;

// A copy names the length of its buffer.
#[derive(Drop)]
pub enum Call {
    Take(RawRule),
    Freedom,
    Settle(u32),
    Copy(usize),
}

// A copy tells what its buffer holds then.
#[derive(Drop)]
pub enum Reply {
    Took(Result<(), Fault>),
    Free(Option<usize>),
    Settled(Settled),
    Copied(Result<(), Fault>, Vec<u8>),
}
