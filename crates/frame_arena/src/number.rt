ghost use Rattle.std.specs.Prelude.{◌≡◌, length};
ghost use Rattle.host_types.specs.Bytes.{number_of, bytes_of};
ghost use Rattle.frame_arena.specs.Pages.{IsAccessSize};

use byteorder::{ByteOrder, LittleEndian};

/// The number that all of 1, 2, 4 or 8 bytes make, the lowest byte first.
pub(crate) fn read_number(bytes: &[u8]) -> u64
    requires { IsAccessSize (length bytes.now) }
    ensures { result ≡ number_of bytes.now }
{
    match bytes.len() {
        1 => u64::from(bytes[0]),
        2 => u64::from(LittleEndian::read_u16(bytes)),
        4 => u64::from(LittleEndian::read_u32(bytes)),
        _ => LittleEndian::read_u64(bytes),
    }
}

/// Writes as many of a number's lowest bytes as there is room for, which is 1, 2, 4 or 8.
pub(crate) fn write_number(bytes: &mut [u8], value: u64)
    requires { IsAccessSize (length bytes.old) }
    ensures { bytes.new ≡ bytes_of (length bytes.old) value }
{
    match bytes.len() {
        1 => bytes[0] = (value % (1 << 8)) as u8,
        2 => LittleEndian::write_u16(bytes, (value % (1 << 16)) as u16),
        4 => LittleEndian::write_u32(bytes, (value % (1 << 32)) as u32),
        _ => LittleEndian::write_u64(bytes, value),
    }
}
