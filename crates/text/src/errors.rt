// Why a text could not be given: a refusal, or want of memory.
ghost use Rattle.std.specs.Prelude.{◌≡◌, Some};
ghost use Rattle.text.specs.declared.errors.TextError.TheVariants.{Refused, Memory};
ghost use Rattle.text.specs.Refusals.{error_text};

use rules::faults::Fault;
use std::alloc::AllocError;
use std::error::Error;
use std::fmt;

#[derive(Clone, Copy, PartialEq, Eq, Debug)]
pub enum TextError {
    Refused(Fault),
    Memory,
}

impl fmt::Display for TextError {
    ghost output = { λ e. Some (error_text e) };

    fn fmt<W: fmt::Write>(&self, f: &mut fmt::Formatter<W>) -> fmt::Result {
        match self {
            Self::Refused(fault) => write!(f, "{fault}"),
            Self::Memory => f.write_str("want of memory"),
        }
    }
}

impl Error for TextError {}

// Written by hand, since the clauses say which error a `?` makes.
impl From<Fault> for TextError {
    ghost from_gives = { λ f r. r ≡ Refused f };

    fn from(fault: Fault) -> TextError {
        TextError::Refused(fault)
    }
}

// By hand for the same reason.
impl From<AllocError> for TextError {
    ghost from_gives = { λ _ r. r ≡ Memory };

    fn from(_e: AllocError) -> TextError {
        TextError::Memory
    }
}
