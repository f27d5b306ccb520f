// The third-year format: clauses and parity rules, each with a width byte.
ghost use Rattle.std.specs.Prelude.{◌≡◌, ◌*◌, ◌≤◌, length, refl};
ghost use Rattle.rules.specs.First.{on_ok};
ghost use Rattle.files.specs.Formats.{read_as};
ghost use Rattle.files.specs.ThirdFormat.{third_year, listed, third_clause, third_parity};
ghost use Rattle.files.specs.Reads.{SizeChecked};
ghost use Rattle.files.specs.ThirdRules.{third_sound};

use crate::numbers::decode;
use crate::records::{Flaw, Generation, RuleRecord, frame};
use rules::building::width_fits;
use rules::faults::Cause;
use rules::kinds::{Kind, Side};

// The third generation of the format.
pub struct ThirdYear;

// The width fits the kind, and the bytes that it asks for are present.
fn check_size(kind: Kind, width: usize, asked: usize, rest: &[u8]) -> Result<(), Flaw>
    ensures { SizeChecked kind width asked rest.now result }
{
    if !width_fits(kind, width) {
        return Err(Flaw {
            cause: Cause::Width,
            offset: 2,
        });
    }
    if rest.len() < asked {
        return Err(Flaw {
            cause: Cause::Form,
            offset: 0,
        });
    }
    Ok(())
}

// The entries at the front of the bytes, as a rule of the kind; `first` bytes of the record come before them.
fn read_entries(
    kind: Kind,
    n: u16,
    first: usize,
    width: usize,
    bytes: &[u8],
) -> Result<RuleRecord, Flaw>
    requires { (first ≤ 16) × ((width ≤ 16) × (2 * width ≤ length bytes.now)) }
    ensures { on_ok read_as result ≡ listed kind n first width bytes.now }
{
    let entries = decode(bytes, width);
    frame(kind, n, &entries[..width], first, first + 2 * width)
}

// A clause from its width on.
fn read_clause(n: u16, width: u8, literals: &[u8]) -> Result<RuleRecord, Flaw>
    ensures { on_ok read_as result ≡ third_clause n width literals.now }
{
    let width = width as usize;
    check_size(Kind::Clause, width, 2 * width, literals)?;
    read_entries(Kind::Clause, n, 3, width, literals)
}

// A parity rule from its width on.
fn read_parity(n: u16, width: u8, rest: &[u8]) -> Result<RuleRecord, Flaw>
    ensures { on_ok read_as result ≡ third_parity n width rest.now }
{
    let width = width as usize;
    check_size(Kind::Parity(Side::Even), width, 1 + 2 * width, rest)?;
    let [side, switches @ ..] = rest else {
        unreachable!()
    };
    let side = Side::try_from(*side).map_err(|_none| Flaw {
        cause: Cause::Entry,
        offset: 3,
    })?;
    read_entries(Kind::Parity(side), n, 4, width, switches)
}

// Patterns take the bytes apart, so that they show mark and width.
impl Generation for ThirdYear {
    ghost format = { third_year };

    ghost HEAD = { third_year.head_byte };

    ghost head = { refl };

    ghost sound = { λ n bs. third_sound n bs };

    const HEAD: u8 = b'3';

    fn read_rule(n: u16, bytes: &[u8]) -> Option<Result<RuleRecord, Flaw>> {
        match bytes {
            [b'C', b'L', width, literals @ ..] => Some(read_clause(n, *width, literals)),
            [b'P', b'A', width, rest @ ..] => Some(read_parity(n, *width, rest)),
            [b'C', b'L'] | [b'P', b'A'] => Some(Err(Flaw {
                cause: Cause::Form,
                offset: 0,
            })),
            _ => None,
        }
    }
}
