//! Results that have no fixed length.
ghost use Rattle.std.specs.Prelude.{◌≡◌, ◌≤◌, length};
ghost use Rattle.host_types.specs.Bytes.{with_part};
ghost use Rattle.host_handle.specs.Texts.{put_into, put_code};

/// Writes bytes to the beginning of a buffer, if it is long enough, and how many they are: the number that the call returns.
pub fn put(bytes: &[u8], buffer: &mut [u8], written: &mut usize) -> u32
    ensures buffer { buffer.new ≡ put_into bytes.now buffer.old }
    ensures written { written.new ≡ length bytes.now }
    ensures code { result ≡ put_code bytes.now buffer.old }
{
    *written = bytes.len();
    if bytes.len() > buffer.len() {
        return 102;
    }
    write_front(bytes, buffer);
    0
}

/// Writes bytes to the beginning of a buffer.
pub(crate) fn write_front(bytes: &[u8], buffer: &mut [u8])
    requires { length bytes.now ≤ length buffer.now }
    ensures { buffer.new ≡ with_part buffer.old 0 bytes.now }
{
    buffer[..bytes.len()].copy_from_slice(bytes);
}
