ghost use Rattle.std.specs.Prelude.{◌≡◌, ◌≤◌, ◌<◌, ◌*◌, ◌==◌, ◌&&◌, ℕ, true, Some, length, take};
ghost use Rattle.std.specs.Prelude.{if◌then◌else◌, replicate};
ghost use Rattle.std.specs.List.{list_all};
ghost use Rattle.hex.specs.Hex.{hex_digit_value};
ghost use Rattle.state_codec.specs.Texts.{is_lower_digit, decoded};

use std::marker::Model;

/// No state of a plan has more digits.
const MOST_DIGITS: usize = 64;

/// The digits of a state, two for each of its bytes, whose number is set first. They are of
/// `0-9a-f`. There is room for those of each state of a plan.
#[derive(Drop)]
pub struct Digits {
    text: [u8; MOST_DIGITS],
    bytes: usize,
}

impl Model for Digits {
    ghost use Rattle.std.specs.Prelude.{ℕ, ◌≡◌, ◌≤◌, ◌*◌, List, true, take};
    ghost use Rattle.std.specs.List.{list_all};
    ghost use Rattle.state_codec.specs.Texts.{is_lower_digit};

    ghost Value = { List ℕ };

    ghost view = { λ d. take (2 * d.bytes) d.text };

    ghost invariant = { λ d. (d.bytes ≤ 32)
        × (list_all is_lower_digit (take (2 * d.bytes) d.text) ≡ true) };
}

/// Whether it is a digit of `0-9a-f`.
fn is_lower(digit: u8) -> bool
    ensures { result ≡ is_lower_digit digit }
{
    (digit.wrapping_sub(b'0') < 10) | (digit.wrapping_sub(b'a') < 6)
}

/// Whether each is one. All are looked at: that is faster than to stop at the first that is none.
fn are_lower(digits: &[u8]) -> bool
    ensures { result ≡ list_all is_lower_digit digits.now }
{
    let mut all = true;
    for digit in digits {
        all &= is_lower(*digit);
    }
    all
}

/// The value of a digit, without a branch.
fn value_of(digit: u8) -> u8
    requires { is_lower_digit digit ≡ true }
    ensures value { hex_digit_value digit ≡ Some result }
    ensures most { result < 16 }
{
    let zero = if digit < b'a' { b'0' } else { b'a' - 10 };
    digit - zero
}

impl Digits {
    /// The digits of so many bytes, at most 32, that are all 0.
    pub fn zeros(bytes: usize) -> Digits
        requires { bytes ≤ 32 }
        ensures value { result ≡ replicate (2 * bytes) 48 }
        ensures length { length result ≡ 2 * bytes }
    {
        Digits {
            text: [b'0'; MOST_DIGITS],
            bytes,
        }
    }

    /// How many there are.
    pub fn count(&self) -> usize
        ensures value { result ≡ length self.now }
        ensures most { result ≤ 64 }
    {
        2 * self.bytes
    }

    /// Takes a text of as many digits of `0-9a-f`. Any other is refused, and changes nothing.
    pub fn take(&mut self, text: &[u8]) -> bool
        ensures fits { result ≡ (length text.now == length self.old
            && list_all is_lower_digit text.now) }
        ensures taken { self.new ≡ (if result then text.now else self.old) }
    {
        if text.len() != self.count() || !are_lower(text) {
            return false;
        }
        self.text[..2 * self.bytes].copy_from_slice(text);
        true
    }

    /// Puts the bytes that they stand for at the beginning of these.
    pub fn decode(&self, bytes: &mut [u8; 40])
        ensures { (count : ℕ) → length self.now ≡ 2 * count
            → take count bytes.new ≡ decoded self.now }
    {
        let digits = &self.text[..2 * self.bytes];
        for i in 0..self.bytes {
            bytes[i] = value_of(digits[2 * i]) * 16 + value_of(digits[2 * i + 1]);
        }
    }
}
