// The entries of a rule in a file: two bytes each, the low one first.
ghost use Rattle.std.specs.Prelude.{◌≡◌, ◌*◌, ◌≤◌, length, take};
ghost use Rattle.files.specs.Numbers.{entries_in};

// The first `count` entries of the bytes, at the front of the array.
pub(crate) fn decode(bytes: &[u8], count: usize) -> [i16; 16]
    requires { (count ≤ 16) × (2 * count ≤ length bytes.now) }
    ensures { take count result ≡ entries_in count bytes.now }
{
    let mut entries = [0; 16];
    for (i, pair) in bytes[..2 * count].as_chunks::<2>().0.iter().enumerate() {
        entries[i] = i16::from_le_bytes(*pair);
    }
    entries
}
