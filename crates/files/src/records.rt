// Rule records, and what a generation of the format says of them.
ghost use Rattle.std.specs.Prelude.{◌≡◌, ℕ, ◌≤◌, List, length};
ghost use Rattle.std.specs.Option.{option_map};
ghost use Rattle.rules.specs.First.{on_ok};
ghost use Rattle.files.specs.Formats.{Format, SoundAt, read_as, framed};
ghost use Rattle.rules.specs.Entries.{built};

use rules::building::build_rule;
use rules::faults::Cause;
use rules::kinds::Kind;
use rules::rule::Rule;

// A rule, and the number of bytes of its record.
#[derive(Clone, Copy)]
pub struct RuleRecord {
    pub rule: Rule,
    pub size: usize,
}

// What is wrong with a rule record, and at which of its bytes.
#[derive(Clone, Copy)]
pub struct Flaw {
    pub cause: Cause,
    pub offset: usize,
}

// A generation of the format: the second byte of its head, and its rule records. It owes that a record lies within its bytes and that its rule is lawful.
pub trait Generation {
    ghost format: { Format };

    // The second byte of the head.
    const HEAD: u8;

    ghost HEAD: { ℕ };

    // The rule record at the front of the bytes; absent where they do not begin with a rule's mark.
    fn read_rule(n: u16, bytes: &[u8]) -> Option<Result<RuleRecord, Flaw>>
        ensures { option_map (on_ok read_as) result ≡ format.rule_at n bytes.now };

    ghost head: { HEAD ≡ format.head_byte };

    ghost sound: { (n : ℕ) (bs : List ℕ) → SoundAt n (length bs) (format.rule_at n bs) };
}

// The rule with these entries, in a record of `size` bytes whose entries begin at the byte `first`.
pub(crate) fn frame(
    kind: Kind,
    n: u16,
    entries: &[i16],
    first: usize,
    size: usize,
) -> Result<RuleRecord, Flaw>
    requires { (length entries.now ≤ 16) × (first ≤ 16) }
    ensures { on_ok read_as result ≡ framed first size (built kind n entries.now) }
{
    let rule = build_rule(kind, n, entries).map_err(|misfit| Flaw {
        cause: misfit.cause,
        offset: first + 2 * misfit.index,
    })?;
    Ok(RuleRecord { rule, size })
}
