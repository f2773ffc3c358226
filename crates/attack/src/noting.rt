//! Says what was found.

ghost use Rattle.texts.specs.Growth.{Puts};
ghost use Rattle.attack.specs.Notes.{note_line};

use crate::finding::Found;
use edge_io::{Piece, Sink, WriteFault, put_pieces};

/// Writes the line of an attack that was found: `locked L of T`, with its first locked
/// configuration and the bound of the plan, or `locked none of T`.
pub fn put_note<K: Sink>(sink: &mut K, found: Found) -> Result<(), WriteFault>
    ensures { Puts result (note_line found) (K.told sink.old) (K.told sink.new) }
{
    let bound = Piece::Number(found.bound);
    match found.lock {
        Some(lock) => put_pieces(
            sink,
            &[
                Piece::Text(b"locked "),
                Piece::Number(lock),
                Piece::Text(b" of "),
                bound,
                Piece::Text(b"\n"),
            ],
        ),
        None => put_pieces(
            sink,
            &[Piece::Text(b"locked none of "), bound, Piece::Text(b"\n")],
        ),
    }
}
