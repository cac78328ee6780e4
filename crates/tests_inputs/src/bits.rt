//! Flips of a bit.

/// The bits of a byte.
pub const BITS: [u8; 8] = [1, 2, 4, 8, 16, 32, 64, 128];

/// Flips a bit of a byte, if the text has the byte.
pub fn flip(text: &mut [u8], at: usize, bit: u8) {
    if let Some(byte) = text.get_mut(at) {
        *byte ^= bit;
    }
}
