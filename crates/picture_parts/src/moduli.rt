//! What the outputs of a picture count by.

ghost use Rattle.std.specs.Prelude.{◌≡◌, ◌<◌, true};
ghost use Rattle.picture_parts.specs.Moduli.{IsBelow};

/// Whether an output is below a number.
pub fn is_below(modulus: u64, shown: Option<u64>) -> bool
    ensures { result ≡ true → IsBelow modulus shown }
{
    match shown {
        None => true,
        Some(output) => output < modulus,
    }
}
