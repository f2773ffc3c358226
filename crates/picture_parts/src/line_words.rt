//! Writes words that stand in the lines of runs and of sweeps.

ghost use Rattle.edge_io.specs.Writing.{Writes};
ghost use Rattle.picture_parts.specs.LineWords.{bound_line, era_words, locked_words};

use edge_io::{Piece, Sink, Writer};

/// Writes the bound.
pub fn put_bound<K: Sink>(writer: &mut Writer<'_, K>, bound: u64)
    ensures { Writes K.told (bound_line bound) writer.old writer.new }
{
    writer.pieces(&[
        Piece::Text(b"bound "),
        Piece::Number(bound),
        Piece::Text(b"\n"),
    ]);
}

/// Writes which era a line is about.
pub fn put_era<K: Sink>(writer: &mut Writer<'_, K>, era: Option<u32>)
    ensures { Writes K.told (era_words era) writer.old writer.new }
{
    match era {
        Some(begin) => writer.pieces(&[
            Piece::Text(b"era "),
            Piece::Number(u64::from(begin)),
            Piece::Text(b" "),
        ]),
        None => {}
    }
}

/// Writes which configuration is the first locked one.
pub fn put_locked<K: Sink>(writer: &mut Writer<'_, K>, locked: Option<u32>)
    ensures { Writes K.told (locked_words locked) writer.old writer.new }
{
    match locked {
        Some(t) => writer.pieces(&[Piece::Text(b"locked "), Piece::Number(u64::from(t))]),
        None => writer.text(b"locked none"),
    }
}
