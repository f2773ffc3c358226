//! Writes a sweep as `sweep` writes it.

ghost use Rattle.std.specs.List.{flat_map};
ghost use Rattle.edge_io.specs.Writing.{Writes};
ghost use Rattle.run_pictures.specs.Sweeps.{tally_line, tally_words};

use crate::sweep_charts::Tally;
use edge_io::{Piece, Sink, Writer};
use picture_parts::{put_era, put_locked};

/// Writes a line, without its newline.
pub fn put_tally_words<K: Sink>(writer: &mut Writer<'_, K>, tally: Tally)
    ensures { Writes K.told (tally_words tally) writer.old writer.new }
{
    put_era(writer, Some(tally.era));
    put_locked(writer, tally.locked);
    writer.pieces(&[
        Piece::Text(b" runs "),
        Piece::Number(u64::from(tally.runs)),
        Piece::Text(b" seed "),
        Piece::Number(tally.seed),
    ]);
}

/// Writes all lines after the bound.
pub fn put_tally_lines<K: Sink>(writer: &mut Writer<'_, K>, tallies: &[Tally])
    ensures { Writes K.told (flat_map tally_line tallies.now) writer.old writer.new }
{
    for i in 0..tallies.len() {
        put_tally_words(writer, tallies[i]);
        writer.text(b"\n");
    }
}
