ghost use Rattle.std.specs.Prelude.{◌≡◌, decimal};
ghost use Rattle.texts.specs.Growth.{Puts};
ghost use Rattle.texts.specs.Numbers.{number_of};

use crate::{Sink, WriteFault, put_all};
use itoa::Buffer;

/// The digits of the longest number.
const MOST_DIGITS: usize = 15;

/// The number that a word writes in decimal: 1 to 15 digits, with no leading zero but in `0`
/// itself. None exactly if the word is no number.
pub fn number(word: &[u8]) -> Option<u64>
    ensures { result ≡ number_of word.now }
{
    if word.is_empty() || word.len() > MOST_DIGITS {
        return None;
    }
    if word[0] == b'0' && word.len() > 1 {
        return None;
    }
    let mut value: u64 = 0;
    for digit in word {
        if !digit.is_ascii_digit() {
            return None;
        }
        value = value * 10 + u64::from(*digit - b'0');
    }
    Some(value)
}

/// Writes a number in decimal.
///
/// `WriteFault` comes only if the sink counted one fault, which ended the call; a prefix of the
/// digits was then taken, and not all of them came through.
pub fn put_number<K: Sink>(sink: &mut K, value: u64) -> Result<(), WriteFault>
    ensures { Puts result (decimal value) (K.told sink.old) (K.told sink.new) }
{
    let mut buffer = Buffer::new();
    put_all(sink, buffer.format(value).as_bytes())
}
