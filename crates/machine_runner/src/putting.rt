ghost use Rattle.std.specs.Prelude.{[], ◌∷◌};
ghost use Rattle.std.specs.List.{concat};
ghost use Rattle.edge_io.specs.Writing.{Writes};
ghost use Rattle.machine_runner.specs.RunTexts.{bound_line, locked_line, era_front};

use edge_io::{Sink, Writer};

/// Writes the line of a bound.
pub fn put_bound<K: Sink>(writer: &mut Writer<'_, K>, bound: u64)
    ensures { Writes K.told (bound_line bound) writer.old writer.new }
{
    writer.labelled(b"bound ", bound);
    writer.byte(b'\n');
}

/// Writes which configuration is the first locked one.
pub fn put_locked<K: Sink>(writer: &mut Writer<'_, K>, locked: Option<u64>)
    ensures { Writes K.told (locked_line locked) writer.old writer.new }
{
    match locked {
        Some(t) => {
            writer.labelled(b"locked ", t);
            writer.byte(b'\n');
        }
        None => writer.text(b"locked none\n"),
    }
}

/// Writes the line of an era that begins with configuration `first`: which is the first locked one
/// of it.
pub fn put_era<K: Sink>(writer: &mut Writer<'_, K>, first: u64, locked: Option<u64>)
    ensures { Writes K.told (concat (era_front first ∷ locked_line locked ∷ []))
        writer.old writer.new }
{
    writer.labelled(b"era ", first);
    writer.byte(b' ');
    put_locked(writer, locked);
}
