//! Writes the beginning of a picture, and its ground.

ghost use Rattle.std.specs.Prelude.{◌≡◌};
ghost use Rattle.edge_io.specs.Writing.{Writes};
ghost use Rattle.picture_parts.specs.Fronts.{picture_front, picture_ground, picture_width};

use crate::frames::{Frame, right};
use edge_io::{Piece, Sink, Writer};

/// Writes the beginning of a picture.
pub fn put_front<K: Sink>(writer: &mut Writer<'_, K>, width: u64, height: u64)
    ensures { Writes K.told (picture_front width height) writer.old writer.new }
{
    writer.pieces(&[
        Piece::Text(b"<svg xmlns='http://www.w3.org/2000/svg' width='"),
        Piece::Number(width),
        Piece::Text(b"' height='"),
        Piece::Number(height),
        Piece::Text(b"' viewBox='0 0 "),
        Piece::Number(width),
        Piece::Text(b" "),
        Piece::Number(height),
        Piece::Text(b"' font-family='monospace' font-size='11' text-anchor='middle'>\n"),
    ]);
}

/// How wide a picture is, with a legend and a line of the caption that has two configurations.
pub fn picture_width(frame: Frame) -> u64
    ensures { result ≡ picture_width frame }
{
    right(frame).max((141 + 14 * u64::from(frame.digits)).max(330))
}

/// Writes how faulty nodes are hatched, and the ground.
pub fn put_ground<K: Sink>(writer: &mut Writer<'_, K>)
    ensures { Writes K.told picture_ground writer.old writer.new }
{
    writer.text(
        b"<defs><pattern id='faulty' width='6' height='6' patternUnits='userSpaceOnUse'>\
        <path d='M0 0H6V6H0Z' fill='white'/><path d='M0 6L6 0' stroke='black'/>\
        </pattern></defs>\n<rect width='100%' height='100%' fill='white'/>\n",
    );
}
