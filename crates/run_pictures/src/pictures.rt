//! Draws a chart.

ghost use Rattle.edge_io.specs.Writing.{Writes};
ghost use Rattle.run_pictures.specs.Pictures.{cell_legend, picture_text};

use crate::cells::put_cells;
use crate::charts::Chart;
use crate::laid::is_laid;
use crate::marks::put_ends;
use crate::printing::{put_end_lines, put_rows};
use edge_io::{Piece, Sink, Writer};
use picture_parts::{
    Figure, bottom, picture_width, put_bound, put_colour_legend, put_front, put_ground,
    put_number_caption, put_span,
};

/// Writes what else the cells mean.
fn put_cell_legend<K: Sink>(writer: &mut Writer<'_, K>, y: u64)
    ensures { Writes K.told (cell_legend y) writer.old writer.new }
{
    writer.pieces(&[
        Piece::Text(b"<g text-anchor='start' transform='translate(4,"),
        Piece::Number(y),
        Piece::Text(
            b")'>\n<rect width='18' height='18' fill='url(#faulty)'/>\
                <text x='24' y='13'>faulty</text>\n\
                <rect x='110' width='18' height='18' fill='silver'/><path d='M110 0h8l-8 8z'/>\
                <text x='134' y='13'>hit by an era's start</text>\n</g>\n",
        ),
    ]);
}

impl Figure for Chart {
    ghost use Rattle.run_pictures.specs.Charts.{chart_text};
    ghost use Rattle.run_pictures.specs.Laid.{IsLaid};
    ghost use Rattle.run_pictures.specs.Pictures.{picture_text};

    ghost text = { chart_text };

    ghost picture = { picture_text };

    ghost laid = { IsLaid };

    fn put_text<K: Sink>(&self, writer: &mut Writer<'_, K>) {
        put_bound(writer, self.bound);
        put_rows(writer, self.first, self.nodes, self.words());
        put_end_lines(writer, self.lines());
    }

    fn put_picture<K: Sink>(&self, writer: &mut Writer<'_, K>) {
        let frame = self.frame();
        let bottom = bottom(frame);
        let ends = self.lines();
        let lines = 16 * ends.len() as u64;
        put_front(writer, picture_width(frame), bottom + 102 + lines);
        put_ground(writer);
        put_cells(writer, frame, self.words());
        put_span(writer, frame);
        put_number_caption(writer, bottom + 28, b"nodes", u64::from(self.nodes));
        put_number_caption(writer, bottom + 44, b"bound", self.bound);
        put_ends(writer, self, ends);
        put_colour_legend(writer, bottom + 54 + lines);
        put_cell_legend(writer, bottom + 76 + lines);
        writer.text(b"</svg>\n");
    }

    fn is_laid(&self) -> bool {
        is_laid(self)
    }
}
