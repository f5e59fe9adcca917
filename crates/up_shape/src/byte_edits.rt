//! Edits of bytes in a vector.
ghost use Rattle.std.specs.Prelude.{◌≡◌, ◌≤◌, ◌+◌, length, drop, slice_range};
ghost use Rattle.up_shape.specs.Bytes.{written_at};

/// Fills `out` with the bytes from the place `at` on.
pub(crate) fn copy_from(bytes: &[u8], at: usize, out: &mut [u8])
    requires { at + length out.old ≤ length bytes.now }
    ensures { out.new ≡ slice_range bytes.now at (at + length out.old) }
{
    let end = at + out.len();
    out.copy_from_slice(&bytes[at..end]);
}

/// Takes the first bytes away.
pub(crate) fn drop_first(bytes: &mut Vec<u8>, count: usize)
    requires { count ≤ length bytes.old.items }
    ensures { bytes.new.items ≡ drop count bytes.old.items }
{
    drop(bytes.drain(..count));
}

/// Writes these bytes over those from the place `at` on.
pub(crate) fn write_over(bytes: &mut [u8], at: usize, written: &[u8])
    requires { at + length written.now ≤ length bytes.old }
    ensures { bytes.new ≡ written_at at written.now bytes.old }
{
    let end = at + written.len();
    bytes[at..end].copy_from_slice(written);
}
