// Numbers as big-endian bytes: the byte of the highest worth comes first.
ghost use Rattle.std.specs.Prelude.{◌≡◌, ◌+◌, ◌≤◌, length, slice_range};
ghost use Rattle.up_base.specs.Number.{big_endian};

/// The number in two bytes from a place on.
pub fn read_u16(b: &[u8], at: usize) -> u16
    requires { at + 2 ≤ length b.now }
    ensures { result ≡ big_endian (slice_range b.now at (at + 2)) }
{
    u16::from(b[at]) * 256 + u16::from(b[at + 1])
}

/// The number in four bytes from a place on.
pub fn read_u32(b: &[u8], at: usize) -> u32
    requires { at + 4 ≤ length b.now }
    ensures { result ≡ big_endian (slice_range b.now at (at + 4)) }
{
    u32::from(read_u16(b, at)) * 65536 + u32::from(read_u16(b, at + 2))
}

/// The number in eight bytes from a place on.
pub fn read_u64(b: &[u8], at: usize) -> u64
    requires { at + 8 ≤ length b.now }
    ensures { result ≡ big_endian (slice_range b.now at (at + 8)) }
{
    u64::from(read_u32(b, at)) * 4_294_967_296 + u64::from(read_u32(b, at + 4))
}
