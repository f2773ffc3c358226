//! Draws what a node shows, and the numbers and words beside it.

ghost use Rattle.edge_io.specs.Writing.{Writes};
ghost use Rattle.picture_parts.specs.Squares.{axes_at, cell_close, column_head, cross, face_word};
ghost use Rattle.picture_parts.specs.Squares.{filling, hover_front, inscription, node_label};
ghost use Rattle.picture_parts.specs.Squares.{number_text, rectangle_front, shown_at};

use crate::faces::{Face, lead_of, shade};
use crate::frames::{
    CellPosition, Frame, MOST_COLUMNS, band_top, column_middle, configuration, left, middle,
    spot_top, width,
};
use edge_io::{Piece, Sink, Writer};

/// Writes a number, in the middle of x.
pub fn put_number_at<K: Sink>(writer: &mut Writer<'_, K>, x: u64, y: u64, n: u64)
    ensures { Writes K.told (number_text x y n) writer.old writer.new }
{
    writer.pieces(&[
        Piece::Text(b"<text x='"),
        Piece::Number(x),
        Piece::Text(b"' y='"),
        Piece::Number(y),
        Piece::Text(b"'>"),
        Piece::Number(n),
        Piece::Text(b"</text>\n"),
    ]);
}

/// Writes what is counted to the right and down, above a column that is the first one of its band.
fn put_axes_at<K: Sink>(writer: &mut Writer<'_, K>, frame: Frame, column: u32)
    ensures { Writes K.told (axes_at frame column) writer.old writer.new }
{
    if column % MOST_COLUMNS == 0 {
        let top = band_top(frame.height, column);
        writer.pieces(&[
            Piece::Text(b"<text x='52' y='"),
            Piece::Number(top + 11),
            Piece::Text(b"' text-anchor='start'>configuration</text>\n<text x='26' y='"),
            Piece::Number(top + 25),
            Piece::Text(b"'>node</text>\n"),
        ]);
    }
}

/// Writes what stands above a column.
pub fn put_column_head<K: Sink>(writer: &mut Writer<'_, K>, frame: Frame, column: u32)
    ensures { Writes K.told (column_head frame column) writer.old writer.new }
{
    put_axes_at(writer, frame, column);
    put_number_at(
        writer,
        column_middle(frame.digits, column),
        band_top(frame.height, column) + 25,
        u64::from(frame.first) + u64::from(column),
    );
}

/// Writes the id of a node, before its line in each band.
pub fn put_node_label<K: Sink>(writer: &mut Writer<'_, K>, spot: CellPosition, node: u64)
    ensures { Writes K.told (node_label spot node) writer.old writer.new }
{
    if spot.column % MOST_COLUMNS == 0 {
        put_number_at(writer, 26, spot_top(spot) + 13, node);
    }
}

/// Writes what is said of a node when the pointer rests on its cell, up to what it shows there.
pub fn put_hover_front<K: Sink>(writer: &mut Writer<'_, K>, spot: CellPosition, node: u64)
    ensures { Writes K.told (hover_front spot node) writer.old writer.new }
{
    writer.pieces(&[
        Piece::Text(b"<g><title>node "),
        Piece::Number(node),
        Piece::Text(b", configuration "),
        Piece::Number(configuration(spot)),
    ]);
}

/// Writes what a node shows, at the end of that.
fn put_face_word<K: Sink>(writer: &mut Writer<'_, K>, face: Face)
    ensures { Writes K.told (face_word face) writer.old writer.new }
{
    match face {
        Face::Faulty => writer.text(b": faulty</title>\n"),
        Face::Nothing => writer.text(b": no value</title>\n"),
        Face::Value(output) => writer.pieces(&[
            Piece::Text(b": "),
            Piece::Number(output),
            Piece::Text(b"</title>\n"),
        ]),
    }
}

/// Writes the beginning of a rectangle, up to its filling.
pub fn put_rectangle<K: Sink>(writer: &mut Writer<'_, K>, spot: CellPosition)
    ensures { Writes K.told (rectangle_front spot) writer.old writer.new }
{
    writer.pieces(&[
        Piece::Text(b"<rect x='"),
        Piece::Number(left(spot)),
        Piece::Text(b"' y='"),
        Piece::Number(spot_top(spot)),
        Piece::Text(b"' width='"),
        Piece::Number(width(spot)),
        Piece::Text(b"' height='18' stroke='white' fill='"),
    ]);
}

/// Writes the rest of a rectangle: nodes that count keep one colour.
fn put_filling<K: Sink>(writer: &mut Writer<'_, K>, spot: CellPosition, face: Face)
    ensures { Writes K.told (filling spot face) writer.old writer.new }
{
    match face {
        Face::Faulty => writer.text(b"url(#faulty)'/>\n"),
        Face::Nothing => writer.text(b"whitesmoke'/>\n"),
        Face::Value(output) => {
            let lead = lead_of(spot.frame.modulus, configuration(spot), output);
            writer.pieces(&[
                Piece::Text(b"rgb("),
                Piece::Number(shade(87, 5, 113, lead)),
                Piece::Text(b","),
                Piece::Number(shade(0, 50, 109, lead)),
                Piece::Text(b","),
                Piece::Number(shade(93, 32, 107, lead)),
                Piece::Text(b")'/>\n"),
            ]);
        }
    }
}

/// Draws a cross, which stands for no value.
pub fn put_cross<K: Sink>(writer: &mut Writer<'_, K>, spot: CellPosition)
    ensures { Writes K.told (cross spot) writer.old writer.new }
{
    writer.pieces(&[
        Piece::Text(b"<path d='M"),
        Piece::Number(middle(spot) - 3),
        Piece::Text(b" "),
        Piece::Number(spot_top(spot) + 6),
        Piece::Text(b"l6 6m0 -6l-6 6' stroke='dimgray'/>\n"),
    ]);
}

/// Writes what stands within a rectangle.
fn put_inscription<K: Sink>(writer: &mut Writer<'_, K>, spot: CellPosition, face: Face)
    ensures { Writes K.told (inscription spot face) writer.old writer.new }
{
    match face {
        Face::Faulty => {}
        Face::Nothing => put_cross(writer, spot),
        Face::Value(output) => put_number_at(writer, middle(spot), spot_top(spot) + 13, output),
    }
}

/// Draws a black corner if the start of an era put a node into another state, and ends a group.
fn put_cell_close<K: Sink>(writer: &mut Writer<'_, K>, spot: CellPosition, hit: bool)
    ensures { Writes K.told (cell_close spot hit) writer.old writer.new }
{
    match hit {
        true => writer.pieces(&[
            Piece::Text(b"<path d='M"),
            Piece::Number(left(spot)),
            Piece::Text(b" "),
            Piece::Number(spot_top(spot)),
            Piece::Text(b"h8l-8 8z'/></g>\n"),
        ]),
        false => writer.text(b"</g>\n"),
    }
}

/// Draws a rectangle with what a node shows, and the corner, with what is said of it when the
/// pointer rests on it.
pub fn put_shown<K: Sink>(
    writer: &mut Writer<'_, K>,
    spot: CellPosition,
    node: u64,
    face: Face,
    hit: bool,
)
    ensures { Writes K.told (shown_at spot node face hit) writer.old writer.new }
{
    put_hover_front(writer, spot, node);
    put_face_word(writer, face);
    put_rectangle(writer, spot);
    put_filling(writer, spot, face);
    put_inscription(writer, spot, face);
    put_cell_close(writer, spot, hit);
}
