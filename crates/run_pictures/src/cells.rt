//! Draws the cells of a chart.

ghost use Rattle.std.specs.List.{flat_map};
ghost use Rattle.edge_io.specs.Writing.{Writes};
ghost use Rattle.run_pictures.specs.Cells.{cell_head, cell_picture};

use crate::charts::Cell;
use edge_io::{Sink, Writer};
use picture_parts::{
    CellPosition, Frame, face_of, line_top, put_column_head, put_node_label, put_shown,
};

/// Writes what stands above a column, with the first cell.
fn put_cell_head<K: Sink>(writer: &mut Writer<'_, K>, frame: Frame, cell: Cell)
    ensures { Writes K.told (cell_head frame cell) writer.old writer.new }
{
    if cell.node == 0 {
        put_column_head(writer, frame, cell.row);
    }
}

/// Draws a cell, with the labels that stand beside it.
fn put_cell<K: Sink>(writer: &mut Writer<'_, K>, frame: Frame, cell: Cell)
    ensures { Writes K.told (cell_picture frame cell) writer.old writer.new }
{
    let spot = CellPosition {
        frame,
        column: cell.row,
        top: line_top(cell.node),
    };
    let node = u64::from(cell.node);
    put_cell_head(writer, frame, cell);
    put_node_label(writer, spot, node);
    put_shown(writer, spot, node, face_of(cell.shown), cell.is_hit);
}

/// Draws all cells.
pub fn put_cells<K: Sink>(writer: &mut Writer<'_, K>, frame: Frame, cells: &[Cell])
    ensures { Writes K.told (flat_map (cell_picture frame) cells.now)
        writer.old writer.new }
{
    for i in 0..cells.len() {
        put_cell(writer, frame, cells[i]);
    }
}
