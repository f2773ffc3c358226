ghost use Rattle.edge_io.specs.Writing.{Writes};
ghost use Rattle.plan_reader.specs.TextLines.{version_line, base_line, spares_end};

use edge_io::{Piece, Sink, Writer};
use plan_numbers::Plan;

/// Writes the first line of a text: its kind, which ends with a space, and its version.
pub fn put_version<K: Sink>(writer: &mut Writer<'_, K>, kind: &[u8], version: u32)
    ensures { Writes K.told (version_line kind.now version) writer.old writer.new }
{
    writer.pieces(&[
        Piece::Text(kind),
        Piece::Number(u64::from(version)),
        Piece::Text(b"\n"),
    ]);
}

/// Writes the line of a plan's base.
pub fn put_base<K: Sink>(writer: &mut Writer<'_, K>, plan: &Plan)
    ensures { Writes K.told (base_line plan.now.base) writer.old writer.new }
{
    writer.pieces(&[
        Piece::Text(b"base "),
        Piece::Number(plan.base_modulus()),
        Piece::Text(b"\n"),
    ]);
}

/// Writes the end of a level's line: its spares in version 2, and a newline.
pub fn put_spares_end<K: Sink>(writer: &mut Writer<'_, K>, version: u32, spares: u32)
    ensures { Writes K.told (spares_end version spares) writer.old writer.new }
{
    if version == 1 {
        writer.byte(b'\n');
    } else {
        writer.pieces(&[
            Piece::Text(b" spare "),
            Piece::Number(u64::from(spares)),
            Piece::Text(b"\n"),
        ]);
    }
}
