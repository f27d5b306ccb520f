// Scripts carried out.
ghost use Rattle.std.specs.Prelude.{◌≡◌, IfOk, string_bytes};
ghost use Rattle.script.specs.Records.{ScriptRead};
ghost use Rattle.script.specs.Scripts.{Told, ToldOf, script_in, Answered};

use crate::errors::ScriptError;
use crate::head::{Shape, read_head};
use crate::lines::Answer;
use crate::reading::read_calls;
use files::any::{check_any, read_any};
use rules::faults::Fault;
use session::call::Call;
use session::driver::perform;
use sheets::pair::Pair;
use sheets::placing::Placing;
use sheets::sheet::Sheet;
use std::alloc::{AllocError, Global};

// What the session is opened over, and the calls on it.
#[derive(Drop)]
pub(crate) struct Script<'a> {
    pub(crate) shape: Shape,
    pub(crate) by: u16,
    pub(crate) first: &'a [u8],
    pub(crate) second: &'a [u8],
    pub(crate) calls: Vec<Call>,
}

// The script that the bytes are.
fn read_script(heap: Global, bytes: &[u8]) -> Result<Script<'_>, ScriptError>
    ensures { ScriptRead (script_in bytes.now) result }
{
    let head = read_head(bytes).ok_or(ScriptError::Form)?;
    // The head gives the places of the files and the calls.
    let second = 11 + usize::from(head.first);
    let calls = second + usize::from(head.second);
    if bytes.len() < calls {
        return Err(ScriptError::Form);
    }
    Ok(Script {
        shape: head.shape,
        by: head.by,
        first: &bytes[11..second],
        second: &bytes[second..calls],
        calls: read_calls(heap, head.calls, &bytes[calls..])?,
    })
}

impl Script<'_> {
    // The refusals among the verdicts on the makings of the sheet, its size, and the replies to the calls on a session that is opened over it.
    fn answer_over<S: Sheet>(
        &self,
        heap: Global,
        verdicts: &[Result<(), Fault>],
        sheet: &S,
    ) -> Result<String, AllocError>
        ensures { IfOk result (λ s. Told verdicts.now (S.Sheet.meaning sheet.now) self.now.calls.items (string_bytes s)) }
    {
        let replies = perform(heap, sheet, self.calls.as_slice())?;
        let answer = Answer {
            verdicts,
            switches: sheet.switches(),
            rules: sheet.count(),
            replies: replies.as_slice(),
        };
        format!(in heap; "{answer}")
    }

    // Each shape is made of the one before it: the first file's sheet, placed, paired with the second file's, and paired with the first file's again.
    fn answer(&self, heap: Global) -> Result<String, AllocError>
        ensures { IfOk result (λ s. ToldOf self.now.shape self.now.by self.now.first.now self.now.second.now self.now.calls.items (string_bytes s)) }
    {
        let file = check_any(self.first);
        let table = read_any(heap, self.first)?;
        if self.shape == Shape::Plain {
            return self.answer_over(heap, &[file], &table);
        }
        let placing = Placing {
            below: table,
            by: self.by,
        };
        let placed = placing.check();
        if self.shape == Shape::Placed {
            return self.answer_over(heap, &[file, placed], &placing);
        }
        let other = check_any(self.second);
        let pair = Pair {
            first: placing,
            second: read_any(heap, self.second)?,
        };
        let paired = pair.check();
        if self.shape == Shape::Paired {
            return self.answer_over(heap, &[file, placed, other, paired], &pair);
        }
        let stack = Pair {
            first: pair,
            second: read_any(heap, self.first)?,
        };
        let verdicts = [file, placed, other, paired, stack.check()];
        self.answer_over(heap, &verdicts, &stack)
    }
}

// The refusals of the sheet's makings, its size and the replies to the calls, each in its line; or the line that tells that the bytes are no script.
pub fn answer_script(heap: Global, bytes: &[u8]) -> Result<String, AllocError>
    ensures { IfOk result (λ s. Answered (script_in bytes.now) (string_bytes s)) }
{
    match read_script(heap, bytes) {
        Ok(script) => script.answer(heap),
        Err(ScriptError::Form) => String::from_str(heap, "not a script\n"),
        Err(ScriptError::Memory) => Err(AllocError),
    }
}
