//! What is said again of bytes that were read.

ghost use Rattle.std.specs.Prelude.{◌≡◌, IfOk};
ghost use Rattle.draw.specs.Echoes.{echoed, is_printable, EchoesArePlain, EchoesAreWorked};

use std::alloc::{AllocError, Global};

/// How many bytes are said again at most.
const MOST_ECHOED: usize = 200;

/// Whether a byte is a letter, a digit or a sign of ASCII, or a space.
fn is_printable(byte: u8) -> bool
    ensures { result ≡ is_printable byte }
{
    byte >= 32 && byte <= 126
}

/// What is said again of bytes: those that can be printed, and of these at most the first 200.
pub fn echoed(alloc: Global, bytes: &[u8]) -> Result<Vec<u8>, AllocError>
    ensures { IfOk result (λ said. said.items ≡ echoed bytes.now) }
{
    let mut said = Vec::new(alloc);
    for byte in bytes {
        if said.len() >= MOST_ECHOED {
            return Ok(said);
        }
        if is_printable(*byte) {
            said.push(*byte)?;
        }
    }
    Ok(said)
}

/// Whatever was read, what is said again of it is short, and can be printed. The function is empty:
/// its clauses are the laws.
pub fn echoes_are_plain()
    ensures plain { EchoesArePlain }
    ensures worked { EchoesAreWorked }
{}
