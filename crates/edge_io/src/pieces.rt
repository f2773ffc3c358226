ghost use Rattle.texts.specs.Growth.{Puts};
ghost use Rattle.edge_io.specs.Pieces.{piece_text, pieces_text};

use crate::{Sink, WriteFault, put_all, put_number};

/// A part of a text that is written: bytes as they are, or a number in decimal.
#[derive(Clone, Copy, Debug)]
pub enum Piece<'a> {
    Text(&'a [u8]),
    Number(u64),
}

fn put_piece<K: Sink>(sink: &mut K, piece: &Piece<'_>) -> Result<(), WriteFault>
    ensures { Puts result (piece_text piece.now) (K.told sink.old) (K.told sink.new) }
{
    match piece {
        Piece::Text(text) => put_all(sink, text),
        Piece::Number(value) => put_number(sink, *value),
    }
}

/// Writes the pieces, one after the other.
///
/// `WriteFault` comes only if the sink counted one fault, which ended the call; a prefix of their
/// text was then taken, and not all of it came through.
pub fn put_pieces<K: Sink>(sink: &mut K, pieces: &[Piece<'_>]) -> Result<(), WriteFault>
    ensures { Puts result (pieces_text pieces.now) (K.told sink.old) (K.told sink.new) }
{
    for piece in pieces {
        match put_piece(sink, piece) {
            Ok(()) => {}
            Err(WriteFault) => return Err(WriteFault),
        }
    }
    Ok(())
}
