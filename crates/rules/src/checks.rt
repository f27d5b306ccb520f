// The check of one rule from outside, for the layers that name an entry by its index.
ghost use Rattle.std.specs.Prelude.{◌≡◌};
ghost use Rattle.rules.specs.First.{on_ok};
ghost use Rattle.rules.specs.Views.{constraint};
ghost use Rattle.rules.specs.Checks.{checked, raw_width_fits, kind_or_none};

use crate::building::{build_rule, width_fits};
use crate::faults::{Cause, Fault, Layer};
use crate::kinds::{Kind, NoSide, RawKind, Side};
use crate::rule::Rule;

// One arm for each kind.
fn raw_width_fits(kind: RawKind, width: usize) -> bool
    ensures { result ≡ raw_width_fits kind width }
{
    match kind {
        RawKind::Clause => width_fits(Kind::Clause, width),
        RawKind::Parity(_number) => width_fits(Kind::Parity(Side::Even), width),
    }
}

// The kind that is meant, where the number of a parity rule is one of a side.
impl TryFrom<RawKind> for Kind {
    type Error = NoSide;

    ghost try_from_gives = { λ kind r. r ≡ kind_or_none kind };

    fn try_from(kind: RawKind) -> Result<Kind, NoSide> {
        match kind {
            RawKind::Clause => Ok(Kind::Clause),
            RawKind::Parity(number) => Ok(Kind::Parity(Side::try_from(number)?)),
        }
    }
}

// The rule over n switches, or its fault: width, then side, then the entries from the first to the last.
pub fn check_rule(
    layer: Layer,
    record: u16,
    n: u16,
    kind: RawKind,
    entries: &[i16],
) -> Result<Rule, Fault>
    ensures { on_ok constraint result ≡ checked layer «record» n kind entries.now }
{
    let refuse = |cause: Cause, place: usize| layer.fault(cause, record, place);
    if !raw_width_fits(kind, entries.len()) {
        return Err(refuse(Cause::Width, 0));
    }
    let kind = Kind::try_from(kind).map_err(|_none| refuse(Cause::Entry, 0))?;
    build_rule(kind, n, entries).map_err(|misfit| refuse(misfit.cause, misfit.index))
}
