//! Choices that are drawn: the same each time.

use rand_chacha::ChaCha8Rng;
use rand_core::{Rng, SeedableRng};
use reference::numbers::remainder;
use std::alloc::{AllocError, Global};

/// What choices are drawn from.
#[derive(Drop)]
pub struct Draws {
    generator: ChaCha8Rng,
    pub alloc: Global,
}

impl Draws {
    /// Draws that are the same each time.
    pub fn new(alloc: Global) -> Draws {
        Draws {
            generator: ChaCha8Rng::from_seed([7; 32]),
            alloc,
        }
    }

    /// A number below `count`, or 0 if that is 0.
    pub fn below(&mut self, count: u64) -> u64 {
        let high = u64::from(self.generator.next_u32() % 65536);
        let low = u64::from(self.generator.next_u32());
        remainder(high * 4294967296 + low, count)
    }

    /// A number from `first` to `last`.
    pub fn between(&mut self, first: u64, last: u64) -> u64 {
        let count = last.wrapping_sub(first).wrapping_add(1);
        first.wrapping_add(self.below(count))
    }

    /// One time in `of`.
    pub fn once_in(&mut self, of: u64) -> bool {
        self.below(of) == 0
    }

    /// A byte of any kind.
    fn byte(&mut self) -> u8 {
        (self.generator.next_u32() % 256) as u8
    }

    /// So many bytes of any kind.
    pub fn bytes(&mut self, count: u64) -> Result<Vec<u8>, AllocError> {
        let mut bytes = Vec::new(self.alloc);
        for _ in 0..count {
            bytes.push(self.byte())?;
        }
        Ok(bytes)
    }

    /// A key, or none.
    pub fn key(&mut self) -> Option<[u8; 32]> {
        if self.once_in(2) {
            return None;
        }
        let mut key = [0; 32];
        for byte in &mut key {
            *byte = self.byte();
        }
        Some(key)
    }

    /// So many numbers below another.
    pub fn numbers(&mut self, count: u64, values: u64) -> Result<Vec<u64>, AllocError> {
        let mut numbers = Vec::new(self.alloc);
        for _ in 0..count {
            numbers.push(self.below(values))?;
        }
        Ok(numbers)
    }

    /// Some numbers below `count`, rising, `wanted` of them: any, or, one time in three, such that
    /// stand side by side, 0 being after the last.
    pub fn some(&mut self, count: u64, wanted: u64) -> Result<Vec<u64>, AllocError> {
        let mut some = Vec::new(self.alloc);
        let first = self.below(count);
        let are_neighbours = self.once_in(3);
        let mut left = wanted;
        for number in 0..count {
            let behind = remainder(number.wrapping_add(count).wrapping_sub(first), count);
            let is_any = self.below(count.wrapping_sub(number)) < left;
            if if are_neighbours {
                behind < wanted
            } else {
                is_any
            } {
                some.push(number)?;
                left = left.saturating_sub(1);
            }
        }
        Ok(some)
    }
}
