//! Writes lines of the caption, below the bands.

ghost use Rattle.std.specs.Prelude.{◌≡◌};
ghost use Rattle.edge_io.specs.Writing.{Writes};
ghost use Rattle.picture_parts.specs.Captions.{colour_legend, last_of, number_caption};
ghost use Rattle.picture_parts.specs.Captions.{span_caption};

use crate::frames::{Frame, bottom};
use edge_io::{Piece, Sink, Writer};

/// The configuration of the last column.
fn last_of(frame: Frame) -> u64
    ensures { result ≡ last_of frame }
{
    let behind = u64::from(frame.first) + u64::from(frame.columns);
    if behind == 0 { 0 } else { behind - 1 }
}

/// Writes which configurations a picture shows.
pub fn put_span<K: Sink>(writer: &mut Writer<'_, K>, frame: Frame)
    ensures { Writes K.told (span_caption frame) writer.old writer.new }
{
    writer.pieces(&[
        Piece::Text(b"<text text-anchor='start' x='4' y='"),
        Piece::Number(bottom(frame) + 12),
        Piece::Text(b"'>configurations "),
        Piece::Number(u64::from(frame.first)),
        Piece::Text(b" to "),
        Piece::Number(last_of(frame)),
        Piece::Text(b"</text>\n"),
    ]);
}

/// Writes a word and a number in a line of the caption.
pub fn put_number_caption<'a, K: Sink>(writer: &mut Writer<'_, K>, y: u64, word: &'a [u8], n: u64)
    ensures { Writes K.told (number_caption y word.now n) writer.old writer.new }
{
    writer.pieces(&[
        Piece::Text(b"<text text-anchor='start' x='4' y='"),
        Piece::Number(y),
        Piece::Text(b"'>"),
        Piece::Text(word),
        Piece::Text(b" "),
        Piece::Number(n),
        Piece::Text(b"</text>\n"),
    ]);
}

/// Writes what the colours of outputs mean.
pub fn put_colour_legend<K: Sink>(writer: &mut Writer<'_, K>, y: u64)
    ensures { Writes K.told (colour_legend y) writer.old writer.new }
{
    writer.pieces(&[
        Piece::Text(b"<g text-anchor='start' transform='translate(4,"),
        Piece::Number(y),
        Piece::Text(
            b")'>\n<rect width='18' height='18' fill='rgb(215,128,221)'/>\
                <text x='24' y='13'>colour: output less configuration</text>\n</g>\n",
        ),
    ]);
}
