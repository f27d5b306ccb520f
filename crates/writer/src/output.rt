// Bytes put one behind the other into a buffer that a caller lends.
ghost use Rattle.std.specs.Prelude.{◌≡◌, ◌++◌};

// A cursor: of a buffer that is written in chunks nothing would be known afterwards. The bytes before `end` are put.
#[derive(Drop)]
pub(crate) struct Output<'a> {
    buffer: &'a mut [u8],
    end: usize,
}

impl<'a> Output<'a> {
    ghost use Rattle.writer.specs.Bytes.{low_high};
    ghost use Rattle.writer.specs.Output.{HasRoom, Puts};

    pub(crate) fn new(buffer: &'a mut [u8]) -> Output<'a>
        ensures same_buffer { result.buffer.ghost_name ≡ buffer.entry.ghost_name }
        ensures same_bytes { result.buffer.now ≡ buffer.old }
        ensures none { result.end ≡ 0 }
    {
        Output { buffer, end: 0 }
    }

    // More bytes, behind those that are put.
    pub(crate) fn put(&mut self, bytes: &[u8])
        requires { HasRoom bytes.now self.old }
        ensures { Puts bytes.now self.old self.new }
    {
        let end = self.end + bytes.len();
        self.buffer[self.end..end].copy_from_slice(bytes);
        self.end = end;
    }

    // A mark and a number, whose low byte comes first.
    pub(crate) fn put_numbered(&mut self, mark: &[u8; 2], number: u16)
        requires { HasRoom (mark.now ++ low_high number) self.old }
        ensures { Puts (mark.now ++ low_high number) self.old self.new }
    {
        self.put(mark);
        self.put(&number.to_le_bytes());
    }
}
