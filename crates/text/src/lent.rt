// Texts put into buffers that a caller lends.
ghost use Rattle.std.specs.Prelude.{IfSome};
ghost use Rattle.text.specs.Lent.{Written, WrittenOr};

use crate::errors::TextError;
use rules::faults::{Cause, Fault, Layer};
use std::alloc::Global;
use std::fmt;

// The text at the front of the buffer, which keeps what lies behind it; or nothing written, where the buffer is too short.
pub fn put_text(out: &mut [u8], text: &[u8]) -> Result<usize, Fault>
    ensures { Written text.now out.old out.new result }
{
    if out.len() < text.len() {
        return Err(Layer::Writer.fault(Cause::ShortBuffer, 0, 0));
    }
    out[0..text.len()].copy_from_slice(text);
    Ok(text.len())
}

// What the value prints, at the front of the buffer; its length is told, and the buffer beyond is left.
pub fn write_text<D: fmt::Display + Drop>(
    heap: Global,
    value: D,
    out: &mut [u8],
) -> Result<usize, TextError>
    ensures { IfSome (D.output value) (λ text. WrittenOr text out.old out.new result) }
{
    let text = format!(in heap; "{value}")?;
    let length = put_text(out, text.as_bytes())?;
    Ok(length)
}

#[cfg(test)]
mod tests {
    use super::*;
    use std::test::Fail;

    #[test]
    fn writes_a_value_at_the_front(rt: HostRuntime) -> Result<(), Fail> {
        let mut out = [7u8; 5];
        assert_eq!(rt; write_text(rt.alloc(), 305u16, &mut out)?, 3);
        assert_eq!(rt; out.as_slice(), [b'3', b'0', b'5', 7, 7].as_slice());
        Ok(())
    }
}
