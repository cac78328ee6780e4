ghost use Rattle.std.specs.Prelude.{◌≡◌, ◌+◌, ◌*◌, ◌<◌, ◌≤◌, ◌^◌, length, map, option_map, Some, IfSome};
ghost use Rattle.host_types.specs.Bytes.{number_of, bytes_of, with_part};
ghost use Rattle.host_types.specs.Memory.{all_set, only_if};

/// The little-endian number of at most eight bytes.
#[tactic(auto, unfolding(host_types::specs::Bytes::number_of), using(crate::proofs::Powers::one_more_byte))]
pub(crate) fn number_of_bytes(bytes: &[u8]) -> u64
    requires { length bytes.now ≤ 8 }
    ensures number { result ≡ number_of bytes.now }
    ensures fits { result < 256 ^ length bytes.now }
{
    match bytes {
        [] => 0,
        [first, rest @ ..] => with_low_byte(*first, number_of_bytes(rest), rest.len()),
    }
}

/// A number of n bytes, n at most 7, with a byte put below them.
#[tactic(auto, using(crate::proofs::Powers::one_more_byte))]
fn with_low_byte(byte: u8, number: u64, n: usize) -> u64
    requires few { n ≤ 7 }
    requires fits { number < 256 ^ n }
    ensures number { result ≡ byte + 256 * number }
    ensures fits { result < 256 ^ (n + 1) }
{
    u64::from(byte) + 256 * number
}

/// The little-endian number of at most eight bytes, if each is set.
#[tactic(auto, unfolding(host_types::specs::Bytes::number_of, host_types::specs::Memory::all_set))]
pub(crate) fn number_if_set(bytes: &[Option<u8>]) -> Option<u64>
    requires { length bytes.now ≤ 8 }
    ensures number { result ≡ option_map number_of (all_set bytes.now) }
    ensures fits { IfSome result (λ number. number < 256 ^ length bytes.now) }
{
    match bytes {
        [] => Some(0),
        [None, ..] => None,
        [Some(first), rest @ ..] => match number_if_set(rest) {
            Some(number) => Some(with_low_byte(*first, number, rest.len())),
            None => None,
        },
    }
}

/// The eight bytes of a number, the lowest first.
#[tactic(auto, using(crate::proofs::Powers::le_bytes_are))]
pub(crate) fn low_bytes(number: u64) -> [u8; 8]
    ensures { result ≡ bytes_of 8 number }
{
    number.to_le_bytes()
}

/// Writes the lowest `size` bytes of a number, from a location on.
#[tactic(auto, using(crate::proofs::Parts::first_bytes))]
pub(crate) fn put_bytes(bytes: &mut [u8], at: usize, size: usize, number: u64)
    requires small { size ≤ 8 }
    requires within { at + size ≤ length bytes.old }
    ensures { bytes.new ≡ with_part bytes.old at (bytes_of size number) }
{
    put_part(bytes, at, &low_bytes(number)[..size]);
}

/// Sets the lowest `size` bytes of a number, from a location on.
#[tactic(auto, using(crate::proofs::Parts::first_set_bytes))]
pub(crate) fn set_bytes(bytes: &mut [Option<u8>], at: usize, size: usize, number: u64)
    requires small { size ≤ 8 }
    requires within { at + size ≤ length bytes.old }
    ensures { bytes.new ≡ with_part bytes.old at (map Some (bytes_of size number)) }
{
    put_part(bytes, at, &each_set(low_bytes(number))[..size]);
}

/// Bytes, each set.
fn each_set(bytes: [u8; 8]) -> [Option<u8>; 8]
    ensures { result ≡ map Some bytes }
{
    [
        Some(bytes[0]),
        Some(bytes[1]),
        Some(bytes[2]),
        Some(bytes[3]),
        Some(bytes[4]),
        Some(bytes[5]),
        Some(bytes[6]),
        Some(bytes[7]),
    ]
}

/// Writes a part of a list, from a location on.
pub(crate) fn put_part<T: Copy>(items: &mut [T], at: usize, part: &[T])
    requires { at + length part.now ≤ length items.old }
    ensures { items.new ≡ with_part items.old at part.now }
{
    items[at..at + part.len()].copy_from_slice(part);
}

/// Copies bytes, each of which has to be set.
#[tactic(auto, using(crate::proofs::Copies::all_copied, crate::proofs::Copies::not_set))]
pub(crate) fn copy_if_set(bytes: &[Option<u8>], values: &mut [u8]) -> bool
    requires { length values.old ≡ length bytes.now }
    ensures copied { all_set bytes.now ≡ only_if result values.new }
    ensures sized { length values.new ≡ length values.old }
{
    for at in 0..bytes.len() {
        match bytes[at] {
            Some(byte) => values[at] = byte,
            None => return false,
        }
    }
    true
}
