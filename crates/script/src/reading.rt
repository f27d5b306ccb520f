// The calls of a script, read from its bytes.
ghost use Rattle.std.specs.Prelude.{◌≡◌, ◌/◌, length, IfOk};
ghost use Rattle.files.specs.Numbers.{entries_in};
ghost use Rattle.script.specs.Asked.{take_at, clause_at, parity_at, settle_at, copy_at, call_at, calls_in};
ghost use Rattle.script.specs.Records.{RecordRead, CallsRead};

use crate::errors::ScriptError;
use rules::kinds::RawKind;
use session::call::Call;
use sheets::raw::RawRule;
use std::alloc::{AllocError, Global};

// A call, and the bytes behind its record.
#[derive(Drop)]
pub(crate) struct CallRecord<'a> {
    pub(crate) call: Call,
    pub(crate) rest: &'a [u8],
}

// The entries that the bytes are.
fn read_entries(heap: Global, bytes: &[u8]) -> Result<Vec<i16>, AllocError>
    ensures { IfOk result (λ v. v.items ≡ entries_in (length bytes.now / 2) bytes.now) }
{
    let pairs = bytes.as_chunks::<2>().0;
    pairs
        .iter()
        .map(|pair| i16::from_le_bytes(*pair))
        .collect(heap)
}

// A take of so many entries, which stand at the front of the bytes.
fn read_take(
    heap: Global,
    kind: RawKind,
    count: u8,
    bytes: &[u8],
) -> Result<CallRecord<'_>, ScriptError>
    ensures { RecordRead (take_at kind count bytes.now) result }
{
    let Some((entries, rest)) = bytes.split_at_checked(2 * usize::from(count)) else {
        return Err(ScriptError::Form);
    };
    let entries = read_entries(heap, entries)?;
    Ok(CallRecord {
        call: Call::Take(RawRule { kind, entries }),
        rest,
    })
}

// A clause to be taken, behind its mark: the number of its entries, and the entries.
fn read_clause(heap: Global, bytes: &[u8]) -> Result<CallRecord<'_>, ScriptError>
    ensures { RecordRead (clause_at bytes.now) result }
{
    let [count, entries @ ..] = bytes else {
        return Err(ScriptError::Form);
    };
    read_take(heap, RawKind::Clause, *count, entries)
}

// A parity rule to be taken, behind its mark: its side, the number of its entries, and the entries.
fn read_parity(heap: Global, bytes: &[u8]) -> Result<CallRecord<'_>, ScriptError>
    ensures { RecordRead (parity_at bytes.now) result }
{
    let [side, count, entries @ ..] = bytes else {
        return Err(ScriptError::Form);
    };
    read_take(heap, RawKind::Parity(*side), *count, entries)
}

// A settle, behind its mark: its budget.
fn read_settle(bytes: &[u8]) -> Result<CallRecord<'_>, ScriptError>
    ensures { RecordRead (settle_at bytes.now) result }
{
    let [b0, b1, b2, b3, rest @ ..] = bytes else {
        return Err(ScriptError::Form);
    };
    Ok(CallRecord {
        call: Call::Settle(u32::from_le_bytes([*b0, *b1, *b2, *b3])),
        rest,
    })
}

// A copy, behind its mark: the length of its buffer.
fn read_copy(bytes: &[u8]) -> Result<CallRecord<'_>, ScriptError>
    ensures { RecordRead (copy_at bytes.now) result }
{
    let [low, high, rest @ ..] = bytes else {
        return Err(ScriptError::Form);
    };
    Ok(CallRecord {
        call: Call::Copy(usize::from(u16::from_le_bytes([*low, *high]))),
        rest,
    })
}

// The call at the front of the bytes.
fn read_call(heap: Global, bytes: &[u8]) -> Result<CallRecord<'_>, ScriptError>
    ensures { RecordRead (call_at bytes.now) result }
{
    let [mark, rest @ ..] = bytes else {
        return Err(ScriptError::Form);
    };
    match *mark {
        b'C' => read_clause(heap, rest),
        b'P' => read_parity(heap, rest),
        b'F' => Ok(CallRecord {
            call: Call::Freedom,
            rest,
        }),
        b'S' => read_settle(rest),
        b'B' => read_copy(rest),
        _ => Err(ScriptError::Form),
    }
}

// So many calls, and nothing behind them.
pub fn read_calls(heap: Global, count: u16, bytes: &[u8]) -> Result<Vec<Call>, ScriptError>
    ensures { CallsRead (calls_in count bytes.now) result }
{
    let mut calls = Vec::with_capacity(heap, usize::from(count))?;
    let mut rest = bytes;
    // A record tells by itself where the next one begins, so they are read one after the other.
    for i in 0..count {
        let record = read_call(heap, rest)?;
        rest = record.rest;
        calls.push_reserved(record.call);
    }
    if !rest.is_empty() {
        return Err(ScriptError::Form);
    }
    Ok(calls)
}
