ghost use Rattle.std.specs.Prelude.{◌≤◌, length};

use crate::places::{place, place_number};
use std::marker::Model;

/// The bytes that such a text takes up while it is copied: the longest label and the longest
/// number.
pub const MOST_RISING: usize = 32;

/// A number after a label, kept as text, that rises by one at a time.
#[derive(Drop)]
pub struct RisingText {
    // The text, but for its last digit.
    bytes: [u8; MOST_RISING],
    label: usize,
    // The place of the last digit, and this digit.
    last: usize,
    digit: u8,
    value: u64,
}

impl Model for RisingText {
    ghost use Rattle.std.specs.Prelude.{take};
    ghost use Rattle.edge_io.specs.Rising.{Labelled, IsRising};

    ghost Value = { Labelled };

    ghost view = { λ t. record { label = take t.label t.bytes; value = t.value } };

    ghost invariant = { λ t. IsRising t.bytes t.label t.last t.digit t.value };
}

impl RisingText {
    ghost use Rattle.std.specs.Prelude.{◌≡◌, ◌+◌, ◌-◌, ◌^◌, ◌<◌, ◌≤◌, ◌++◌, length, take};
    ghost use Rattle.edge_io.specs.Rising.{labelled_text};

    /// That number after that label, which has at most 12 bytes.
    pub fn new(label: &[u8], value: u64) -> RisingText
        requires { length label.now ≤ 12 }
        ensures { result ≡ record { label = label.now; value = value } }
    {
        let mut bytes = [0; MOST_RISING];
        place(&mut bytes, 0, label);
        let end = place_number(&mut bytes, label.len(), value);
        let digit = bytes[end - 1];
        RisingText {
            bytes,
            label: label.len(),
            last: end - 1,
            digit,
            value,
        }
    }

    /// Makes the number one more. It is below 2^64 - 1.
    pub fn rise(&mut self)
        requires { self.old.value < 2 ^ 64 - 1 }
        ensures { self.new ≡ record self.old { value = self.old.value + 1 } }
    {
        self.value += 1;
        if self.digit < b'9' {
            self.digit += 1;
        } else if self.value > 10 && self.bytes[self.last - 1] < b'9' {
            self.bytes[self.last - 1] += 1;
            self.digit = b'0';
        } else {
            let end = place_number(&mut self.bytes, self.label, self.value);
            self.last = end - 1;
            self.digit = self.bytes[end - 1];
        }
    }

    /// Copies the text into the buffer, from that place on, and answers the place after it. Up to
    /// 32 bytes from that place on are written over.
    pub(crate) fn place_in(&self, buffer: &mut [u8], at: usize) -> usize
        requires { at + 32 ≤ length buffer.old }
        ensures length { length buffer.new ≡ length buffer.old }
        ensures end { result ≡ at + length (labelled_text self.now) }
        ensures within { result ≤ at + 32 }
        ensures text { take result buffer.new ≡ take at buffer.old ++ labelled_text self.now }
    {
        place(buffer, at, &self.bytes);
        buffer[at + self.last] = self.digit;
        at + self.last + 1
    }
}
