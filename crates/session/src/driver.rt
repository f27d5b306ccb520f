// Any calls on a session over any sheet.
ghost use Rattle.std.specs.Prelude.{IfOk};
ghost use Rattle.session.specs.Sessions.{session_of};
ghost use Rattle.session.specs.Drives.{Performs, Performed};

use crate::call::{Call, Reply};
use crate::opening::open;
use crate::session::Session;
use sheets::sheet::Sheet;
use std::alloc::{AllocError, Global};

// One call. A copy is given a buffer of its own, which holds zeros at first.
fn call_once(session: &mut Session, heap: Global, call: &Call) -> Result<Reply, AllocError>
    ensures { IfOk result (λ reply. Performs (session_of session.old) call.now reply (session_of session.new)) }
{
    match call {
        Call::Take(rule) => Ok(Reply::Took(session.take(rule.kind, rule.entries.as_slice()))),
        Call::Freedom => Ok(Reply::Free(session.freedom())),
        Call::Settle(budget) => Ok(Reply::Settled(session.settle(*budget))),
        Call::Copy(length) => {
            let mut bytes = vec![in heap; 0u8; *length]?;
            let reply = session.copy(bytes.as_mut_slice());
            Ok(Reply::Copied(reply, bytes))
        }
    }
}

// Opens a session over the sheet, makes the calls in their order and gives their replies.
pub fn perform<S: Sheet>(heap: Global, sheet: &S, calls: &[Call]) -> Result<Vec<Reply>, AllocError>
    ensures { IfOk result (λ replies. Performed (S.Sheet.meaning sheet.now) calls.now replies.items) }
{
    let mut session = open(heap, sheet)?;
    let mut replies = Vec::with_capacity(heap, calls.len())?;
    // No chain: each call may fail, and changes the session.
    for call in calls {
        let reply = call_once(&mut session, heap, call)?;
        replies.push_reserved(reply);
    }
    Ok(replies)
}
