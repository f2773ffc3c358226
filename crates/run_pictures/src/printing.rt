//! Writes a chart as `run` writes it.

ghost use Rattle.std.specs.List.{flat_map};
ghost use Rattle.edge_io.specs.Writing.{Writes};
ghost use Rattle.run_pictures.specs.Charts.{cell_end, cell_front, cell_words, end_line};
ghost use Rattle.run_pictures.specs.Charts.{end_words, word_text};

use crate::charts::{Cell, End};
use edge_io::{Piece, Sink, Writer};
use picture_parts::{put_era, put_locked};

/// Writes what a node shows: its output, or a star.
fn put_word<K: Sink>(writer: &mut Writer<'_, K>, shown: Option<u64>)
    ensures { Writes K.told (word_text shown) writer.old writer.new }
{
    match shown {
        Some(output) => writer.pieces(&[Piece::Text(b" "), Piece::Number(output)]),
        None => writer.text(b" *"),
    }
}

/// Writes the beginning of a row, before its first word.
fn put_front<K: Sink>(writer: &mut Writer<'_, K>, first: u32, cell: Cell)
    ensures { Writes K.told (cell_front first cell) writer.old writer.new }
{
    if cell.node == 0 {
        writer.pieces(&[
            Piece::Text(b"row "),
            Piece::Number(u64::from(first) + u64::from(cell.row)),
        ]);
    }
}

/// Writes the end of a row, after its last word.
fn put_row_end<K: Sink>(writer: &mut Writer<'_, K>, nodes: u16, cell: Cell)
    ensures { Writes K.told (cell_end nodes cell) writer.old writer.new }
{
    if u64::from(cell.node) + 1 == u64::from(nodes) {
        writer.text(b"\n");
    }
}

/// Writes the rows.
pub fn put_rows<K: Sink>(writer: &mut Writer<'_, K>, first: u32, nodes: u16, cells: &[Cell])
    ensures { Writes K.told (flat_map (cell_words first nodes) cells.now)
        writer.old writer.new }
{
    for i in 0..cells.len() {
        put_front(writer, first, cells[i]);
        put_word(writer, cells[i].shown);
        put_row_end(writer, nodes, cells[i]);
    }
}

/// Writes a line after the rows, without its newline.
pub fn put_end<K: Sink>(writer: &mut Writer<'_, K>, end: End)
    ensures { Writes K.told (end_words end) writer.old writer.new }
{
    put_era(writer, end.era);
    put_locked(writer, end.locked);
}

/// Writes the lines after the rows.
pub fn put_end_lines<K: Sink>(writer: &mut Writer<'_, K>, ends: &[End])
    ensures { Writes K.told (flat_map end_line ends.now) writer.old writer.new }
{
    for i in 0..ends.len() {
        put_end(writer, ends[i]);
        writer.text(b"\n");
    }
}
