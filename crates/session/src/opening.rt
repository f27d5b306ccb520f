// Sessions opened.
ghost use Rattle.std.specs.Prelude.{◌≡◌, [], IfOk};
ghost use Rattle.session_theory.specs.Session.{opened};
ghost use Rattle.session_theory.specs.Law.{Recorded};
ghost use Rattle.session.specs.Sessions.{session_of};

use crate::copying::copy_rules;
use crate::phases::Phase;
use crate::restarting::new_search;
use crate::session::Session;
use parity::reduction::Reduction;
use sheets::sheet::Sheet;
use std::alloc::{AllocError, Global};

// Opens a session over the sheet, whose rules are copied. All memory that the session ever needs is taken here.
#[tactic(auto, unfolding(session_theory::specs::Law::Recorded))]
pub fn open<S: Sheet>(heap: Global, sheet: &S) -> Result<Session, AllocError>
    ensures opened { IfOk result (λ s. session_of s ≡ opened (S.Sheet.meaning sheet.now)) }
    ensures recorded { IfOk result (λ s. Recorded (S.Sheet.meaning sheet.now) [] (session_of s)) }
{
    let rules = copy_rules(heap, sheet)?;
    let count = rules.rules.len();
    let mut reduction = Reduction::new(heap)?;
    reduction.reduce(&rules);
    let search = new_search(heap)?;
    Ok(Session {
        heap,
        rules,
        count,
        reduction,
        search,
        standing: Phase::Fresh,
    })
}
