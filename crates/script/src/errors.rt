// Why a script could not be read: its bytes do not follow the format, or want of memory.
ghost use Rattle.std.specs.Prelude.{◌≡◌};
ghost use Rattle.script.specs.declared.errors.ScriptError.TheVariants.{Memory};

use std::alloc::AllocError;

#[derive(Clone, Copy, PartialEq, Eq, Debug)]
pub enum ScriptError {
    Form,
    Memory,
}

// Written by hand, since the clauses say which error a `?` makes.
impl From<AllocError> for ScriptError {
    ghost from_gives = { λ _ r. r ≡ Memory };

    fn from(_e: AllocError) -> ScriptError {
        ScriptError::Memory
    }
}
