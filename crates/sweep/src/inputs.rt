ghost use Rattle.std.specs.Prelude.{◌≡◌};
ghost use Rattle.sweep.specs.Inputs.{is_halving};

use edge_io::{LONGEST_LINE, first_line, is_skipped};

/// Whether the first line of an input that counts is that of a halving plan. Empty lines and lines
/// that begin with `#` do not count, unless they are longer than 4096 bytes.
pub fn is_halving(input: &[u8]) -> bool
    ensures { result ≡ is_halving input.now }
{
    let mut rest = input;
    while !rest.is_empty() {
        let (line, behind) = first_line(rest);
        if line.len() > LONGEST_LINE || !is_skipped(line) {
            return line == b"halving 1".as_slice();
        }
        rest = behind;
    }
    false
}
