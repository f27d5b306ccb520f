// The line that tells a refusal.
ghost use Rattle.std.specs.Prelude.{◌≡◌, IfOk, string_bytes};
ghost use Rattle.text.specs.Refusals.{refused_line};
ghost use Rattle.text.specs.Lent.{WrittenOr};

use crate::errors::TextError;
use crate::lent::write_text;
use rules::faults::Fault;
use std::alloc::{AllocError, Global};

// The line that tells a refusal: its number, its layer, its record and its place.
pub fn refused_line(heap: Global, fault: Fault) -> Result<String, AllocError>
    ensures { IfOk result (λ s. string_bytes s ≡ refused_line fault) }
{
    format!(in heap; "{fault}\n")
}

// That line at the front of the buffer; its length is told, and the buffer beyond is left.
pub fn write_refusal(heap: Global, fault: Fault, out: &mut [u8]) -> Result<usize, TextError>
    ensures { WrittenOr (refused_line fault) out.old out.new result }
{
    write_text(heap, format_args!("{fault}\n"), out)
}
