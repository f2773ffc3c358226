//! Draws the kings' phases.

ghost use Rattle.std.specs.Prelude.{◌≡◌};
ghost use Rattle.std.specs.List.{flat_map};
ghost use Rattle.edge_io.specs.Writing.{Writes};
ghost use Rattle.picture_parts.specs.Frames.{width};
ghost use Rattle.trace_pictures.specs.Strips.{edge, gold_part, king_text, reign_picture, share};

use crate::trace_printing::{put_strip, turn_word};
use crate::traces::{KingPhase, Turn};
use edge_io::{Piece, Sink, Writer};
use picture_parts::{CellPosition, Frame, configuration, left, middle, spot_top, width};

/// How far a phase has come, as a part of its cell.
fn share(spot: CellPosition, turn: Turn) -> u64
    ensures { result ≡ share (width spot) turn }
{
    match turn {
        Turn::Keep => width(spot) / 3,
        Turn::Mark => width(spot) * 2 / 3,
        Turn::King => width(spot),
    }
}

/// A frame, broken if not all obey a phase.
fn edge(is_common: bool) -> &'static [u8]
    ensures { result.now ≡ edge is_common }
{
    match is_common {
        true => b"z' fill='none' stroke='black'/>\n",
        false => b"z' fill='none' stroke='black' stroke-dasharray='2'/>\n",
    }
}

/// Draws a part of a cell in gold, and a frame about the cell.
fn put_gold_part<'a, K: Sink>(
    writer: &mut Writer<'_, K>,
    spot: CellPosition,
    part: u64,
    edge: &'a [u8],
)
    ensures { Writes K.told (gold_part spot part edge.now) writer.old writer.new }
{
    let x = left(spot);
    let y = spot_top(spot);
    writer.pieces(&[
        Piece::Text(b"<path d='M"),
        Piece::Number(x),
        Piece::Text(b" "),
        Piece::Number(y),
        Piece::Text(b"h"),
        Piece::Number(part),
        Piece::Text(b"v14H"),
        Piece::Number(x),
        Piece::Text(b"z' fill='gold'/>\n<path d='M"),
        Piece::Number(x),
        Piece::Text(b" "),
        Piece::Number(y),
        Piece::Text(b"h"),
        Piece::Number(width(spot)),
        Piece::Text(b"v14H"),
        Piece::Number(x),
        Piece::Text(edge),
    ]);
}

/// Writes the king, and ends a group.
fn put_king<K: Sink>(writer: &mut Writer<'_, K>, spot: CellPosition, king: u64)
    ensures { Writes K.told (king_text spot king) writer.old writer.new }
{
    writer.pieces(&[
        Piece::Text(b"<text x='"),
        Piece::Number(middle(spot)),
        Piece::Text(b"' y='"),
        Piece::Number(spot_top(spot) + 11),
        Piece::Text(b"'>"),
        Piece::Number(king),
        Piece::Text(b"</text></g>\n"),
    ]);
}

/// Draws a phase: what is said of it when the pointer rests on it, its share in gold, a frame, and
/// its king.
fn put_reign<K: Sink>(writer: &mut Writer<'_, K>, frame: Frame, reign: KingPhase)
    ensures { Writes K.told (reign_picture frame reign) writer.old writer.new }
{
    let spot = CellPosition {
        frame,
        column: reign.column,
        top: reign.top,
    };
    writer.pieces(&[
        Piece::Text(b"<g><title>configuration "),
        Piece::Number(configuration(spot)),
        Piece::Text(b","),
    ]);
    put_strip(writer, reign.name);
    writer.pieces(&[
        Piece::Text(b":"),
        Piece::Text(turn_word(reign.turn)),
        Piece::Number(reign.king),
        Piece::Text(b"</title>\n"),
    ]);
    put_gold_part(writer, spot, share(spot, reign.turn), edge(reign.is_common));
    put_king(writer, spot, reign.king);
}

/// Draws all phases.
pub fn put_reigns<K: Sink>(writer: &mut Writer<'_, K>, frame: Frame, reigns: &[KingPhase])
    ensures { Writes K.told (flat_map (reign_picture frame) reigns.now)
        writer.old writer.new }
{
    for i in 0..reigns.len() {
        put_reign(writer, frame, reigns[i]);
    }
}
