ghost use Rattle.std.specs.Prelude.{◌≡◌};
ghost use Rattle.texts.specs.Growth.{Puts};
ghost use Rattle.halving_texts.specs.HalvingWords.{refusal_line};

use crate::HalvingRefusal;
use edge_io::{Piece, Sink, WriteFault, put_pieces};

/// Writes the line of a halving plan that is refused.
pub fn put_refusal<K: Sink>(sink: &mut K, refusal: HalvingRefusal) -> Result<(), WriteFault>
    ensures { Puts result (refusal_line refusal.line refusal.premise) (K.told sink.old)
        (K.told sink.new) }
{
    put_pieces(
        sink,
        &[
            Piece::Text(b"refused halving line "),
            Piece::Number(refusal.line),
            Piece::Text(b" premise "),
            Piece::Text(refusal.premise.word().as_bytes()),
            Piece::Text(b"\n"),
        ],
    )
}
