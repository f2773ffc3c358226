ghost use Rattle.std.specs.Prelude.{◌≡◌, ◌≤◌, ◌+◌, ◌++◌, ◌∷◌, [], length, take, decimal, IfSome};
ghost use Rattle.std.specs.Prelude.{true};
ghost use Rattle.run_checker.specs.NextLies.{lie_front};

use itoa::Buffer;
use std::marker::Model;

/// No lie's line has more bytes before its digits: `lie `, and two numbers of ten digits at most,
/// each with a space after it.
const MOST_FRONT: usize = 26;

/// A faulty node and one that it tells a state, with the text that stands before the digits in its
/// line.
#[derive(Drop)]
pub struct Pair {
    sender: u32,
    receiver: u32,
    text: [u8; MOST_FRONT],
    len: usize,
}

impl Model for Pair {
    ghost use Rattle.std.specs.Prelude.{ℕ, ◌≡◌, ◌≤◌, take};
    ghost use Rattle.run_checker.specs.NextLies.{lie_front};

    ghost Value = { ℕ × ℕ };

    ghost view = { λ p. (p.sender, p.receiver) };

    ghost invariant = { λ p. (p.len ≤ 26)
        × (take p.len p.text ≡ lie_front (p.sender, p.receiver)) };
}

/// Puts bytes after the first `len` of a text, and answers how many there are then.
fn put(text: &mut [u8], len: usize, bytes: &[u8]) -> usize
    requires { len + length bytes.now ≤ length text.old }
    ensures size { length text.new ≡ length text.old }
    ensures count { result ≡ len + length bytes.now }
    ensures put { take (len + length bytes.now) text.new ≡ take len text.old ++ bytes.now }
{
    text[len..len + bytes.len()].copy_from_slice(bytes);
    len + bytes.len()
}

/// Puts a number and a space there.
fn put_number(text: &mut [u8], len: usize, value: u32) -> usize
    requires { len + 11 ≤ length text.old }
    ensures size { length text.new ≡ length text.old }
    ensures few { result ≤ len + 11 }
    ensures put { take result text.new ≡ take len text.old ++ (decimal value ++ 32 ∷ []) }
{
    let mut buffer = Buffer::new();
    let end = put(text, len, buffer.format(value).as_bytes());
    put(text, end, b" ")
}

/// Whether a line begins with these bytes. All are looked at: most lines do.
fn begins_with(line: &[u8], front: &[u8]) -> bool
    ensures { result ≡ true → take (length front.now) line.now ≡ front.now }
{
    if line.len() < front.len() {
        return false;
    }
    let mut same = true;
    for i in 0..front.len() {
        same &= line[i] == front[i];
    }
    same
}

impl Pair {
    /// The pair of these two.
    pub fn new(sender: u32, receiver: u32) -> Pair
        ensures { result ≡ (sender, receiver) }
    {
        let mut text = [0; MOST_FRONT];
        let mut len = put(&mut text, 0, b"lie ");
        len = put_number(&mut text, len, sender);
        len = put_number(&mut text, len, receiver);
        Pair {
            sender,
            receiver,
            text,
            len,
        }
    }

    /// The node that tells.
    pub fn sender(&self) -> u32
        ensures { result ≡ self.now.0 }
    {
        self.sender
    }

    /// The node that hears it.
    pub fn receiver(&self) -> u32
        ensures { result ≡ self.now.1 }
    {
        self.receiver
    }

    /// How many bytes stand before the digits.
    pub fn front_len(&self) -> usize
        ensures value { result ≡ length (lie_front self.now) }
        ensures most { result ≤ 26 }
    {
        self.len
    }

    /// What stands in a line after the text of this pair, if it begins with that.
    pub fn digits_in<'a>(&self, line: &'a [u8]) -> Option<&'a [u8]>
        ensures { IfSome result (λ digits. line.now ≡ lie_front self.now ++ digits.now) }
    {
        if !begins_with(line, &self.text[..self.len]) {
            return None;
        }
        Some(&line[self.len..])
    }
}
