// Programs that answer what stands in standard input with a text.
#![tactic(auto)]

ghost use Rattle.std.specs.Prelude.{◌≡◌, List, ℕ, take, IfSome, OnOk};
ghost use Rattle.std.specs.Io.KnownBytes.{Appends};
ghost use Rattle.program.specs.Answers.{Answers};

use std::alloc::Global;
use std::io;
use std::io::{Read, Write};
use text::errors::TextError;

// Reads at most so many bytes, and writes the text that `answer` puts at the front of a buffer of so many zeros.
pub fn write_answer<R, W, F>(
    heap: Global,
    reader: R,
    writer: &mut W,
    most_input: u64,
    most_text: usize,
    answer: F,
) -> anyhow::Result<()>
where
    R: Read + Drop,
    W: Write,
    F: FnOnce(Global, &[u8], &mut [u8]) -> Result<usize, TextError> + Drop,
    requires { F.IsAlwaysCallable answer }
    ensures { OnOk result ((input : List ℕ) × (text : List ℕ)
        × IfSome (R.remaining reader) (λ bytes. input ≡ take most_input bytes)
        × Answers (F.post answer heap) input most_text text
        × Appends (W.contents writer.old) (W.contents writer.new) text) }
{
    let mut input = Vec::new(heap);
    reader.take(most_input).read_to_end(&mut input)?;
    let mut out = vec![in heap; 0u8; most_text]?;
    let length = answer(heap, input.as_slice(), out.as_mut_slice())?;
    out.truncate(length);
    writer.write_all(out.as_slice())?;
    Ok(())
}

// The same over standard input and standard output, whose bytes no contract names.
pub fn answer_input<R, F>(
    rt: &R,
    most_input: u64,
    most_text: usize,
    answer: F,
) -> anyhow::Result<()>
where
    R: Input + Print + AllocGlobal,
    F: FnOnce(Global, &[u8], &mut [u8]) -> Result<usize, TextError> + Drop,
    requires { F.IsAlwaysCallable answer }
    ensures { OnOk result ((heap : _) × (input : List ℕ) × (text : List ℕ)
        × Answers (F.post answer heap) input most_text text) }
{
    let mut writer = io::writer(rt);
    write_answer(
        rt.alloc(),
        rt.reader(),
        &mut writer,
        most_input,
        most_text,
        answer,
    )
}

#[cfg(test)]
mod tests {
    use super::*;
    use std::test::Fail;
    use text::lent::put_text;

    // The input itself.
    fn repeated(_heap: Global, input: &[u8], out: &mut [u8]) -> Result<usize, TextError> {
        let length = put_text(out, input)?;
        Ok(length)
    }

    #[test]
    fn answers_the_first_bytes(rt: HostRuntime) -> Result<(), Fail> {
        let heap = rt.alloc();
        let input: &[u8] = b"abcdef";
        let mut written = Vec::new(heap);
        assert!(rt; write_answer(heap, input, &mut written, 4, 9, repeated).is_ok());
        assert!(rt; write_answer(heap, input, &mut written, 2, 2, repeated).is_ok());
        assert!(rt; write_answer(heap, input, &mut written, 4, 3, repeated).is_err());
        assert_eq!(rt; written.as_slice(), b"abcdab".as_slice());
        Ok(())
    }
}
