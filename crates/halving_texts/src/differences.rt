ghost use Rattle.std.specs.Prelude.{◌≡◌, ◌<◌, ◌^◌, length};
ghost use Rattle.halving_texts.specs.Reading.{differs_at};

/// The line of the first byte at which two texts differ, None if they are the same.
pub fn differs_at(text: &[u8], other: &[u8]) -> Option<u64>
    ensures { result ≡ differs_at 1 text.now other.now }
{
    let mut line = 1;
    let shorter = text.len().min(other.len());
    for i in 0..shorter {
        if text[i] != other[i] {
            return Some(line);
        }
        if text[i] == b'\n' {
            line += 1;
        }
    }
    if text.len() == other.len() {
        None
    } else {
        Some(line)
    }
}
