// The first-year format: clauses in eight slots.
ghost use Rattle.std.specs.Prelude.{◌≡◌, ◌<◌, ◌≤◌, length, take, drop, refl, IfSome};
ghost use Rattle.rules.specs.First.{on_ok};
ghost use Rattle.files.specs.Formats.{read_as};
ghost use Rattle.files.specs.FirstFormat.{first_year, used_slots, filled_from, slotted, first_clause};
ghost use Rattle.files.specs.Slots.{first_sound};

use crate::numbers::decode;
use crate::records::{Flaw, Generation, RuleRecord, frame};
use rules::faults::Cause;
use rules::kinds::Kind;

// The first generation of the format.
pub struct FirstYear;

// How many slots come before the first empty one, which is 0.
fn count_used(slots: &[i16]) -> usize
    ensures within { result ≤ length slots.now }
    ensures front { used_slots slots.now ≡ take result slots.now }
{
    slots
        .iter()
        .position(|slot| *slot == 0)
        .unwrap_or(slots.len())
}

// The first filled slot from the slot `from` on.
fn find_filled(slots: &[i16], from: usize) -> Option<usize>
    requires { from ≤ length slots.now }
    ensures first { result ≡ filled_from from (drop from slots.now) }
    ensures within { IfSome result (λ i. i < length slots.now) }
{
    let filled = slots[from..].iter().position(|slot| *slot != 0)?;
    Some(from + filled)
}

// The clause of the slots: the first is filled, and none is filled after an empty one.
fn read_slots(n: u16, slots: &[i16]) -> Result<RuleRecord, Flaw>
    requires { length slots.now ≤ 8 }
    ensures { on_ok read_as result ≡ slotted n slots.now }
{
    let used = count_used(slots);
    if used < 1 {
        return Err(Flaw {
            cause: Cause::Width,
            offset: 2,
        });
    }
    match find_filled(slots, used) {
        Some(i) => Err(Flaw {
            cause: Cause::Width,
            offset: 2 + 2 * i,
        }),
        None => frame(Kind::Clause, n, &slots[..used], 2, 18),
    }
}

// A clause from the first slot on.
fn read_clause(n: u16, slots: &[u8]) -> Result<RuleRecord, Flaw>
    ensures { on_ok read_as result ≡ first_clause n slots.now }
{
    if slots.len() < 16 {
        return Err(Flaw {
            cause: Cause::Form,
            offset: 0,
        });
    }
    let entries = decode(slots, 8);
    read_slots(n, &entries[..8])
}

// A pattern takes the bytes apart, so that it shows the mark.
impl Generation for FirstYear {
    ghost format = { first_year };

    ghost HEAD = { first_year.head_byte };

    ghost head = { refl };

    ghost sound = { λ n bs. first_sound n bs };

    const HEAD: u8 = b'1';

    fn read_rule(n: u16, bytes: &[u8]) -> Option<Result<RuleRecord, Flaw>> {
        match bytes {
            [b'C', b'L', slots @ ..] => Some(read_clause(n, slots)),
            _ => None,
        }
    }
}
