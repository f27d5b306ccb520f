// The head of a script.
ghost use Rattle.std.specs.Prelude.{◌≡◌};
ghost use Rattle.script.specs.Heads.{shape_or_form, head_at};

use crate::errors::ScriptError;

// What the session is opened over: the first file's sheet; that sheet placed; a pair of this placing and the second file's sheet; or a pair of that pair and the first file's sheet.
#[derive(Clone, Copy, PartialEq, Eq, Debug)]
pub enum Shape {
    Plain,
    Placed,
    Paired,
    Stacked,
}

impl TryFrom<u8> for Shape {
    type Error = ScriptError;

    ghost try_from_gives = { λ byte r. r ≡ shape_or_form byte };

    fn try_from(byte: u8) -> Result<Shape, ScriptError> {
        match byte {
            0 => Ok(Shape::Plain),
            1 => Ok(Shape::Placed),
            2 => Ok(Shape::Paired),
            3 => Ok(Shape::Stacked),
            _ => Err(ScriptError::Form),
        }
    }
}

// The number that a placing adds, the lengths of the two files, and the number of calls.
#[derive(Clone, Copy)]
pub struct Head {
    pub shape: Shape,
    pub by: u16,
    pub first: u16,
    pub second: u16,
    pub calls: u16,
}

// The head at the front of the bytes; absent where they do not begin with one. A pattern takes them apart, so that it shows the head.
pub fn read_head(bytes: &[u8]) -> Option<Head>
    ensures { result ≡ head_at bytes.now }
{
    let [b'S', b'C', shape, k0, k1, a0, a1, b0, b1, c0, c1, ..] = bytes else {
        return None;
    };
    Some(Head {
        shape: Shape::try_from(*shape).ok()?,
        by: u16::from_le_bytes([*k0, *k1]),
        first: u16::from_le_bytes([*a0, *a1]),
        second: u16::from_le_bytes([*b0, *b1]),
        calls: u16::from_le_bytes([*c0, *c1]),
    })
}
