//! Writes what was counted.

ghost use Rattle.std.specs.Prelude.{◌++◌};
ghost use Rattle.std.specs.List.{flat_map};
ghost use Rattle.texts.specs.Growth.{Puts};
ghost use Rattle.edge_io.specs.Writing.{Writes};
ghost use Rattle.sweep.specs.SweepTexts.{bound_line, found_line, line_of};
ghost use Rattle.sweep.specs.Tallies.{locked_text, runs_text};

use crate::tallies::{EraTally, Found};
use edge_io::{Piece, Sink, WriteFault, Writer};

/// Writes the line of a plan's bound.
fn put_bound<K: Sink>(writer: &mut Writer<'_, K>, bound: u64)
    ensures { Writes K.told (bound_line bound) writer.old writer.new }
{
    writer.pieces(&[
        Piece::Text(b"bound "),
        Piece::Number(bound),
        Piece::Text(b"\n"),
    ]);
}

/// Writes a line of an era that begins with the configuration `first`: so many runs have such a
/// first locked configuration, and `seed` is the least of their numbers.
fn put_found<K: Sink>(
    writer: &mut Writer<'_, K>,
    first: u64,
    locked: Option<u64>,
    runs: u64,
    seed: u64,
)
    ensures { Writes K.told (found_line first locked runs seed) writer.old writer.new }
{
    let word = match locked {
        Some(t) => Piece::Number(t),
        None => Piece::Text(b"none"),
    };
    writer.pieces(&[
        Piece::Text(b"era "),
        Piece::Number(first),
        Piece::Text(b" locked "),
        word,
        Piece::Text(b" runs "),
        Piece::Number(runs),
        Piece::Text(b" seed "),
        Piece::Number(seed),
        Piece::Text(b"\n"),
    ]);
}

/// Writes the line of some runs of an era, or nothing if there are none.
fn put_line<K: Sink>(writer: &mut Writer<'_, K>, first: u64, locked: Option<u64>, found: Found)
    ensures { Writes K.told (line_of first locked found) writer.old writer.new }
{
    if let Some(seed) = found.seed {
        put_found(writer, first, locked, found.runs, seed);
    }
}

/// Writes the lines of the runs of an era that lock.
fn put_locked<K: Sink>(writer: &mut Writer<'_, K>, era: &EraTally)
    ensures { Writes K.told (locked_text era.now) writer.old writer.new }
{
    for place in 0..era.size() {
        let locked = Some(era.configuration(place));
        put_line(writer, era.first(), locked, era.locked_at(place));
    }
}

/// Writes the lines of an era.
fn put_era<K: Sink>(writer: &mut Writer<'_, K>, era: &EraTally)
    ensures { Writes K.told (runs_text era.now) writer.old writer.new }
{
    put_locked(writer, era);
    put_line(writer, era.first(), None, era.unlocked());
}

/// Writes the lines of all eras.
fn put_eras<K: Sink>(writer: &mut Writer<'_, K>, tally: &[EraTally])
    ensures { Writes K.told (flat_map runs_text tally.now) writer.old writer.new }
{
    for j in 0..tally.len() {
        put_era(writer, &tally[j]);
    }
}

/// Writes the bound, and the lines of all eras, gathered. It takes no memory.
///
/// `WriteFault` comes if the sink counted one; a prefix of the text was then taken.
pub fn write_tally<K: Sink>(bound: u64, tally: &[EraTally], sink: &mut K) -> Result<(), WriteFault>
    ensures { Puts result (bound_line bound ++ flat_map runs_text tally.now)
        (K.told sink.old) (K.told sink.new) }
{
    let mut writer = Writer::new(sink);
    put_bound(&mut writer, bound);
    put_eras(&mut writer, tally);
    writer.finish()
}
