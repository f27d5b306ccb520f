// The kinds of rules, and how wide a rule of each kind may be.
ghost use Rattle.std.specs.Prelude.{◌≡◌, ℕ};
ghost use Rattle.rules.specs.Entries.{side_or_none};
ghost use Rattle.rules.specs.Constraints.{is_odd, side_when};

// Whether an even or an odd number of a parity rule's switches is to be on.
#[derive(Clone, Copy, PartialEq, Eq, Debug)]
pub enum Side {
    Even,
    Odd,
}

// The kind of a rule, with the side of a parity rule.
#[derive(Clone, Copy, PartialEq, Eq, Debug)]
pub enum Kind {
    Clause,
    Parity(Side),
}

// A kind as it comes from outside: the side of a parity rule is a number that may be no side.
#[derive(Clone, Copy, PartialEq, Eq, Debug)]
pub enum RawKind {
    Clause,
    Parity(u8),
}

// What every kind of rule has: the greatest width of a rule of it.
pub trait RuleKind {
    const WIDTH: usize;

    ghost WIDTH: { ℕ };
}

// A number that is no side.
#[derive(Clone, Copy, PartialEq, Eq, Debug)]
pub struct NoSide(pub u8);

// Side 0 is even and side 1 is odd; no other number is a side.
impl TryFrom<u8> for Side {
    type Error = NoSide;

    ghost try_from_gives = { λ number r. r ≡ side_or_none number };

    fn try_from(number: u8) -> Result<Side, NoSide> {
        match number {
            0 => Ok(Side::Even),
            1 => Ok(Side::Odd),
            _ => Err(NoSide(number)),
        }
    }
}

// An odd number is odd, and any other is even.
impl From<bool> for Side {
    ghost from_gives = { λ odd side. side ≡ side_when odd };

    fn from(odd: bool) -> Side {
        if odd { Side::Odd } else { Side::Even }
    }
}

impl Side {
    // The side asks for an odd number.
    pub fn is_odd(self) -> bool
        ensures { result ≡ is_odd self }
    {
        self == Side::Odd
    }
}
