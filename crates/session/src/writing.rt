// A setting written to bytes that are lent.
ghost use Rattle.std.specs.Prelude.{◌≡◌, ◌≤◌, ◌++◌, map, length, drop};
ghost use Rattle.rules.specs.Rows.{bit};

// Writes 1 for on and 0 for off at the front; the rest stays as it was.
pub(crate) fn write_values(out: &mut [u8], values: &[bool])
    requires { length values.now ≤ length out.old }
    ensures { out.new ≡ map bit values.now ++ drop (length values.now) out.old }
{
    // By index: behind a zip with `iter_mut` nothing is known of what was written.
    for (i, on) in values.iter().enumerate() {
        out[i] = u8::from(*on);
    }
}
