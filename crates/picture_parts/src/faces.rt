//! What a cell shows of a node's output, and the colours of outputs.

ghost use Rattle.std.specs.Prelude.{◌≡◌, ◌+◌, ◌-◌, ◌%◌, ◌<◌};
ghost use Rattle.picture_parts.specs.Faces.{face_of, lead_of, shade};

/// What a cell shows of an output.
#[derive(Clone, Copy)]
pub enum Face {
    /// The node is faulty, whatever it shows.
    Faulty,
    /// The node has no value, which shows as 0.
    Nothing,
    Value(u64),
}

/// What a word of a row shows: a star stands for a faulty node.
pub fn face_of(shown: Option<u64>) -> Face
    ensures { result ≡ face_of shown }
{
    match shown {
        None => Face::Faulty,
        Some(output) => Face::Value(output),
    }
}

/// How far an output is ahead of what was due. Both are less than the modulus.
fn ahead(modulus: u64, output: u64, due: u64) -> u64
    requires output { output < modulus }
    requires due { due < modulus }
    ensures { result ≡ (output + (modulus - due)) % modulus }
{
    if due <= output {
        output - due
    } else {
        output + (modulus - due)
    }
}

/// How far an output is ahead of its configuration.
pub fn lead_of(modulus: u64, t: u64, output: u64) -> u64
    ensures { result ≡ lead_of modulus t output }
{
    if modulus == 0 {
        output
    } else {
        ahead(modulus, output % modulus, t % modulus)
    }
}

/// One of three parts of a lead's colour.
pub fn shade(start: u8, turn: u8, size: u8, lead: u64) -> u64
    requires { 0 < size }
    ensures { result ≡ shade start turn size lead }
{
    let size = u64::from(size);
    128 + (lead % size * u64::from(turn) + u64::from(start)) % size
}
