// The records of a file, read one after another.
ghost use Rattle.std.specs.Prelude.{◌≡◌, ◌+◌, ◌^◌, ◌<◌, ◌≤◌, length};

use crate::records::{Flaw, Generation};
use rules::faults::{Cause, Fault, Layer};
use rules::rule::Rule;

const MAX_SWITCHES: u16 = 256;

const MAX_RULES: u16 = 1024;

// The records that are left of a file over `n` switches: `rules` rules came before them, and `rest` begins at the byte `place`.
#[derive(Drop)]
pub(crate) struct Records<'a> {
    pub(crate) n: u16,
    rules: u16,
    place: usize,
    rest: &'a [u8],
    ghost narrow: { n ≤ 256 },
    ghost few: { rules ≤ 1024 },
    ghost room: { place + length rest.now < 2 ^ 64 },
}

impl<'a> Records<'a> {
    ghost use Rattle.std.specs.Prelude.{IfOk, IfSome};
    ghost use Rattle.rules.specs.First.{verdict};
    ghost use Rattle.files.specs.Files.{file_fault, end_fault, file};
    ghost use Rattle.files.specs.Reads.{left, meant, with_next};

    // The records after the head of the file. Patterns take the bytes apart, so that they show the head and the end record.
    pub(crate) fn open<G: Generation>(bytes: &'a [u8]) -> Result<Records<'a>, Fault>
        ensures { meant G.Generation.format result ≡ file G.Generation.format bytes.now }
    {
        let [b'F', year, low, high, rest @ ..] = bytes else {
            return Err(Layer::File.fault(Cause::Head, 0, 0));
        };
        if *year != G::HEAD {
            return Err(Layer::File.fault(Cause::Head, 0, 0));
        }
        let n = u16::from_le_bytes([*low, *high]);
        if !(1..=MAX_SWITCHES).contains(&n) {
            return Err(Layer::File.fault(Cause::SwitchCount, 0, 2));
        }
        Ok(Records {
            n,
            rules: 0,
            place: 4,
            rest,
        })
    }

    // A fault of the record at the front, at its byte `offset`.
    fn fault(&self, cause: Cause, offset: usize) -> Fault
        requires { offset ≤ length self.now.rest.now }
        ensures { result ≡ file_fault cause self.now.rules (self.now.place + offset) }
    {
        Layer::File.fault(cause, self.rules, self.place + offset)
    }

    // The end record is at the front, counts the rules, and nothing follows it.
    fn check_end(&self) -> Result<(), Fault>
        ensures { result ≡ verdict (end_fault self.now.rules self.now.place self.now.rest.now) tt }
    {
        let [b'E', b'N', low, high, after @ ..] = self.rest else {
            return Err(self.fault(Cause::Form, 0));
        };
        if u16::from_le_bytes([*low, *high]) != self.rules {
            return Err(self.fault(Cause::RuleCount, 2));
        }
        if !after.is_empty() {
            return Err(self.fault(Cause::RuleCount, 4));
        }
        Ok(())
    }

    // The rule of the next record; absent at the end record. A fault ends the reading, so this is no iterator.
    pub(crate) fn next_rule<G: Generation>(&mut self) -> Result<Option<Rule>, Fault>
        ensures whole { left G.Generation.format self.old ≡ with_next result (left G.Generation.format self.new) }
        ensures switches { self.new.n ≡ self.old.n }
        ensures counted { IfOk result (λ found. IfSome found (λ _. self.new.rules ≡ self.old.rules + 1)) }
    {
        let Some(found) = G::read_rule(self.n, self.rest) else {
            self.check_end()?;
            return Ok(None);
        };
        if self.rules >= MAX_RULES {
            return Err(self.fault(Cause::RuleCount, 0));
        }
        let (rules, place) = (self.rules, self.place);
        let in_file = |flaw: Flaw| Layer::File.fault(flaw.cause, rules, place + flaw.offset);
        let record = found.map_err(in_file)?;
        self.rest = &self.rest[record.size..];
        self.place += record.size;
        self.rules += 1;
        Ok(Some(record.rule))
    }
}
