//! Draws a line down a column.

ghost use Rattle.std.specs.Prelude.{◌<◌};
ghost use Rattle.edge_io.specs.Writing.{Writes};
ghost use Rattle.picture_parts.specs.Marks.{mark_at};

use crate::frames::{Frame, band_top, column_left};
use edge_io::{Piece, Sink, Writer};

/// Draws a line down a column of cells, and as far below them.
pub fn put_mark_at<'a, K: Sink>(
    writer: &mut Writer<'_, K>,
    frame: Frame,
    column: u32,
    cells: u32,
    below: u16,
    colour: &'a [u8],
    word: &'a [u8],
)
    ensures { Writes K.told (mark_at frame column cells below colour.now word.now)
        writer.old writer.new }
{
    let x = column_left(frame.digits, column);
    let top = band_top(frame.height, column);
    let end = top + u64::from(cells) + u64::from(below);
    writer.pieces(&[
        Piece::Text(b"<path d='M"),
        Piece::Number(x),
        Piece::Text(b" "),
        Piece::Number(top + 30),
        Piece::Text(b"V"),
        Piece::Number(end),
        Piece::Text(b"' stroke='"),
        Piece::Text(colour),
        Piece::Text(b"'/>\n<text x='"),
        Piece::Number(x),
        Piece::Text(b"' y='"),
        Piece::Number(end),
        Piece::Text(b"' dx='-3' text-anchor='end' fill='"),
        Piece::Text(colour),
        Piece::Text(b"'>"),
        Piece::Text(word),
        Piece::Text(b"</text>\n"),
    ]);
}
