//! Numbers as bits, and bits as bytes.

/// How many bytes there is room for: those of eight numbers.
const ROOM: usize = 64;

/// Bits, the highest bit of the first byte first, with zeros after them.
#[derive(Clone, Copy)]
pub struct Bits {
    bytes: [u8; ROOM],
    length: u64,
}

/// No bits.
pub const NO_BITS: Bits = Bits {
    bytes: [0; ROOM],
    length: 0,
};

impl Bits {
    /// Puts the lowest bits of a number after the bits, the highest of them first.
    pub fn put(&mut self, number: u64, width: u64) {
        for i in 0..width {
            let bit = number >> (width - i - 1) % 64 & 1;
            if let Some(byte) = self.bytes.get_mut((self.length / 8) as usize) {
                *byte |= (bit as u8) << (7 - self.length % 8);
            }
            self.length = self.length.wrapping_add(1);
        }
    }

    /// The first bytes, so many.
    pub fn bytes(&self, count: u64) -> &[u8] {
        self.bytes.get(..count as usize).unwrap_or(&[])
    }
}

/// The bit at a place of some bytes, the highest bit of the first byte being at place 0.
fn bit(bytes: &[u8], place: u64) -> u64 {
    let byte = bytes.get((place / 8) as usize).copied().unwrap_or(0);
    u64::from(byte >> (7 - place % 8) & 1)
}

/// The number that stands in some bits, the highest first.
pub fn number(bytes: &[u8], first: u64, bits: u64) -> u64 {
    let mut number = 0u64;
    for i in 0..bits {
        number = number
            .wrapping_mul(2)
            .wrapping_add(bit(bytes, first.wrapping_add(i)));
    }
    number
}
