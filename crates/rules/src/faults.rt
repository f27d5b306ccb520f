// Why input or a call is refused.
ghost use Rattle.std.specs.Prelude.{◌≡◌, Some};
ghost use Rattle.rules.specs.Faults.{number, layer_word, fault, fault_text};

use std::fmt;

// Where the fault was found.
#[derive(Clone, Copy, PartialEq, Eq, Debug)]
pub enum Layer {
    File,
    Table,
    Pile,
    Session,
    Writer,
}

// The word for a layer.
impl fmt::Display for Layer {
    ghost output = { λ l. Some (layer_word l) };

    fn fmt<W: fmt::Write>(&self, f: &mut fmt::Formatter<W>) -> fmt::Result {
        f.write_str(match self {
            Layer::File => "file",
            Layer::Table => "table",
            Layer::Pile => "pile",
            Layer::Session => "session",
            Layer::Writer => "writer",
        })
    }
}

impl Layer {
    // The fault of the layer: its cause, the rules before it, and its place.
    pub fn fault(self, cause: Cause, record: u16, place: usize) -> Fault
        ensures { result ≡ fault self cause «record» place }
    {
        Fault {
            layer: self,
            cause,
            record,
            place,
        }
    }
}

// What is at fault; docs/refusals.md says when each is given.
#[derive(Clone, Copy, PartialEq, Eq, Debug)]
pub enum Cause {
    Head = 1,
    SwitchCount = 2,
    Form = 3,
    Width = 4,
    Entry = 5,
    Repeat = 6,
    RuleCount = 7,
    ShortBuffer = 8,
    PlacedTooHigh = 9,
    PairTooLong = 10,
    ParityTooWide = 11,
    TooManyRecords = 12,
    MarginFull = 13,
    NothingFound = 14,
}

// A cause as its number.
impl From<Cause> for u8 {
    ghost from_gives = { λ cause n. n ≡ number cause };

    fn from(cause: Cause) -> u8 {
        cause as u8
    }
}

impl Cause {
    // The number by which a refusal tells its cause.
    pub fn number(self) -> u8
        ensures { result ≡ number self }
    {
        u8::from(self)
    }
}

// A refusal: `record` counts the rules before the place at fault, and `place` is a byte's offset in a file or an entry's index in a rule.
#[derive(Clone, Copy, PartialEq, Eq, Debug)]
pub struct Fault {
    pub layer: Layer,
    pub cause: Cause,
    pub record: u16,
    pub place: usize,
}

// The text of a refusal: its number, its layer, its record and its place.
impl fmt::Display for Fault {
    ghost output = { λ f. Some (fault_text f) };

    fn fmt<W: fmt::Write>(&self, f: &mut fmt::Formatter<W>) -> fmt::Result {
        let number = self.cause.number();
        write!(
            f,
            "refused {number} {} {} {}",
            self.layer, self.record, self.place
        )
    }
}

// What is wrong with one rule: the cause, and the index of the entry at fault (0 for a width).
#[derive(Clone, Copy, PartialEq, Eq, Debug)]
pub struct Misfit {
    pub cause: Cause,
    pub index: usize,
}
