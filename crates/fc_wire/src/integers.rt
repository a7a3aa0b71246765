// Numbers in bytes, the highest byte first.
ghost use Rattle.std.specs.Prelude.{◌≡◌, ◌+◌, ◌≤◌, length};
ghost use Rattle.fc_wire.specs.Bytes.{u16_at, u32_at};

use byteorder::{BigEndian, ByteOrder};

/// The number in the two bytes at a place.
#[inline(always)]
pub fn read_u16(bytes: &[u8], at: usize) -> u16
    requires { at + 2 ≤ length bytes.now }
    ensures { result ≡ u16_at bytes.now at }
{
    BigEndian::read_u16(&bytes[at..])
}

/// The number in the four bytes at a place.
#[inline(always)]
pub fn read_u32(bytes: &[u8], at: usize) -> u32
    requires { at + 4 ≤ length bytes.now }
    ensures { result ≡ u32_at bytes.now at }
{
    BigEndian::read_u32(&bytes[at..])
}
