// Literals, and the numbers by which files, tables and calls name them.
ghost use Rattle.std.specs.Prelude.{◌≡◌};
ghost use Rattle.rules.specs.Entries.{literal};

// A switch with the value that keeps the literal.
#[derive(Clone, Copy, PartialEq, Eq, Debug)]
pub struct Literal {
    pub switch: u16,
    pub on: bool,
}

// The literal that an entry names: v is kept by v on, -v by v off. The entry 0 names no switch, and comes out as the switch 0.
impl From<i16> for Literal {
    ghost from_gives = { λ entry l. l ≡ literal entry };

    fn from(entry: i16) -> Literal {
        Literal {
            switch: entry.unsigned_abs(),
            on: entry >= 0,
        }
    }
}
