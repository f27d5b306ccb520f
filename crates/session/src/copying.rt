// The rules of a sheet, copied.
ghost use Rattle.std.specs.Prelude.{◌≡◌, ◌+◌, ◌≤◌, length, IfOk, vec_capacity};
ghost use Rattle.parity.specs.Reductions.{standing_rules};

use parity::standing::Standing;
use sheets::rules_of::Rules;
use sheets::sheet::Sheet;
use std::alloc::{AllocError, Global};

// All rules, with room for 64 more.
pub(crate) fn copy_rules<S: Sheet>(heap: Global, sheet: &S) -> Result<Standing, AllocError>
    ensures switches { IfOk result (λ s. s.switches ≡ (S.Sheet.meaning sheet.now).switches) }
    ensures rules { IfOk result (λ s. standing_rules s ≡ (S.Sheet.meaning sheet.now).rules) }
    ensures room { IfOk result (λ s. length (S.Sheet.meaning sheet.now).rules + 64 ≤ vec_capacity s.rules) }
{
    let switches = sheet.switches();
    let mut rules = Vec::with_capacity(heap, sheet.count() + 64)?;
    for rule in Rules::of(sheet) {
        rules.push_reserved(rule);
    }
    Ok(Standing { switches, rules })
}
