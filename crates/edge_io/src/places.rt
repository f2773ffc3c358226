ghost use Rattle.std.specs.Prelude.{◌≡◌, ◌≤◌, ◌+◌, ◌++◌, length, take, drop, decimal};

use itoa::Buffer;

/// Copies the bytes into the buffer, from that place on.
pub(crate) fn place(buffer: &mut [u8], at: usize, bytes: &[u8])
    requires { at + length bytes.now ≤ length buffer.old }
    ensures { buffer.new
        ≡ take at buffer.old ++ (bytes.now ++ drop (at + length bytes.now) buffer.old) }
{
    buffer[at..at + bytes.len()].copy_from_slice(bytes);
}

/// Writes the digits of a number into the buffer, from that place on, and answers the place after
/// them.
pub(crate) fn place_number(buffer: &mut [u8], at: usize, value: u64) -> usize
    requires { at + 20 ≤ length buffer.old }
    ensures end { result ≡ at + length (decimal value) }
    ensures within { result ≤ at + 20 }
    ensures placed { buffer.new ≡ take at buffer.old
        ++ (decimal value ++ drop (at + length (decimal value)) buffer.old) }
{
    let mut room = Buffer::new();
    let digits = room.format(value).as_bytes();
    place(buffer, at, digits);
    at + digits.len()
}
