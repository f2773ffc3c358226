//! Draws a sweep.

ghost use Rattle.std.specs.Prelude.{◌≡◌, ◌<◌, ◌^◌};
ghost use Rattle.std.specs.List.{flat_map};
ghost use Rattle.edge_io.specs.Writing.{Writes};
ghost use Rattle.run_pictures.specs.SweepPictures.{axis_if, bar, bar_base, bar_colour, bar_left};
ghost use Rattle.run_pictures.specs.SweepPictures.{beyond_words, bound_middle, bound_picture};
ghost use Rattle.run_pictures.specs.SweepPictures.{is_first, none_middle, sweep_bottom, sweep_foot};
ghost use Rattle.run_pictures.specs.SweepPictures.{sweep_picture, sweep_right, tally_picture};
ghost use Rattle.run_pictures.specs.SweepPictures.{tick_picture, total_words, worst_front};
ghost use Rattle.run_pictures.specs.SweepPictures.{worst_if};

use crate::sweep_charts::{Sweep, Tally, Tick};
use crate::sweep_laid::is_sweep_laid;
use crate::sweep_printing::{put_tally_lines, put_tally_words};
use edge_io::{Piece, Sink, Writer};
use picture_parts::{Figure, put_bound, put_front, put_ground};

/// The left side of a bar.
fn bar_left(column: u32) -> u64
    ensures { result ≡ bar_left column }
{
    60 + 16 * u64::from(column)
}

/// What the bars of a band stand on.
fn bar_base(band: u32) -> u64
    ensures { result ≡ bar_base band }
{
    160 * u64::from(band) + 138
}

/// What is below all bands.
fn sweep_bottom(sweep: &Sweep) -> u64
    ensures value { result ≡ sweep_bottom sweep.now }
    ensures most { result < 2 ^ 40 }
{
    160 * u64::from(sweep.bands)
}

/// What is on the right of all bars.
fn sweep_right(sweep: &Sweep) -> u64
    ensures value { result ≡ sweep_right sweep.now }
    ensures most { result < 2 ^ 40 }
{
    60 + 16 * (u64::from(sweep.columns) + 2)
}

/// The middle of the bar of runs that have no first locked configuration.
fn none_middle(sweep: &Sweep) -> u64
    ensures { result ≡ none_middle sweep.now }
{
    60 + 16 * (u64::from(sweep.columns) + 1) + 7
}

/// The middle of the range that the bound stands in, or what is after the last bar.
fn bound_middle(sweep: &Sweep) -> u64
    ensures { result ≡ bound_middle sweep.now }
{
    60 + 16 * u64::from(sweep.bound_column) + 7
}

/// What stands after a bound that is beyond the last bar.
fn beyond_words(sweep: &Sweep) -> &'static [u8]
    ensures { result.now ≡ beyond_words sweep.now }
{
    if sweep.bound_column < sweep.columns {
        b""
    } else {
        b" .."
    }
}

/// The colour of a bar.
fn bar_colour(locked: Option<u32>) -> &'static [u8]
    ensures { result.now ≡ bar_colour locked }
{
    match locked {
        Some(_) => b"steelblue",
        None => b"firebrick",
    }
}

/// Draws a part of a bar, with its line as the title.
fn put_bar<K: Sink>(writer: &mut Writer<'_, K>, tally: Tally)
    ensures { Writes K.told (bar tally) writer.old writer.new }
{
    writer.text(b"<g><title>");
    put_tally_words(writer, tally);
    writer.pieces(&[
        Piece::Text(b"</title>\n<rect x='"),
        Piece::Number(bar_left(tally.column)),
        Piece::Text(b"' y='"),
        Piece::Number(bar_base(tally.band).saturating_sub(tally.head)),
        Piece::Text(b"' width='14' height='"),
        Piece::Number(tally.head.saturating_sub(tally.foot)),
        Piece::Text(b"' fill='"),
        Piece::Text(bar_colour(tally.locked)),
        Piece::Text(b"'/></g>\n"),
    ]);
}

/// Whether a line is the first one of its era.
fn is_first(tally: Tally) -> bool
    ensures { result ≡ is_first tally }
{
    tally.total == tally.runs
}

/// Draws, with the first line of an era, what the bars of its band stand on and a ground for the
/// words above them, and writes how many runs the highest bar has.
fn put_axis_if<K: Sink>(writer: &mut Writer<'_, K>, sweep: &Sweep, tally: Tally)
    ensures { Writes K.told (axis_if sweep.now tally) writer.old writer.new }
{
    if is_first(tally) {
        let top = 160 * u64::from(tally.band);
        writer.pieces(&[
            Piece::Text(b"<rect width='100%' height='36' fill='white' y='"),
            Piece::Number(top),
            Piece::Text(b"'/>\n<path d='M56 "),
            Piece::Number(bar_base(tally.band)),
            Piece::Text(b".5H"),
            Piece::Number(sweep_right(sweep)),
            Piece::Text(b"' stroke='black'/>\n<text x='28' y='"),
            Piece::Number(top + 46),
            Piece::Text(b"'>"),
            Piece::Number(u64::from(sweep.most)),
            Piece::Text(b"</text>\n"),
        ]);
    }
}

/// Writes a number of runs, and words, before a line of the sweep.
fn put_total<'a, K: Sink>(writer: &mut Writer<'_, K>, y: u64, total: u64, words: &'a [u8])
    ensures { Writes K.told (total_words y total words.now) writer.old writer.new }
{
    writer.pieces(&[
        Piece::Text(b"<text text-anchor='start' x='4' y='"),
        Piece::Number(y),
        Piece::Text(b"'>"),
        Piece::Number(total),
        Piece::Text(words),
    ]);
}

/// Writes how many runs of an era lock, or how many there are if the last ones do not.
fn put_worst_front<K: Sink>(writer: &mut Writer<'_, K>, band: u32, total: u32, locked: Option<u32>)
    ensures { Writes K.told (worst_front band total locked) writer.old writer.new }
{
    let y = 160 * u64::from(band);
    let total = u64::from(total);
    match locked {
        Some(_) => put_total(writer, y + 16, total, b" runs lock, the worst: "),
        None => put_total(writer, y + 30, total, b" runs in all, not locked: "),
    }
}

/// Writes that and the line that has the worst of them, with this line.
fn put_worst_if<K: Sink>(writer: &mut Writer<'_, K>, tally: Tally)
    ensures { Writes K.told (worst_if tally) writer.old writer.new }
{
    if tally.is_worst {
        put_worst_front(writer, tally.band, tally.total, tally.locked);
        put_tally_words(writer, tally);
        writer.text(b"</text>\n");
    }
}

/// Draws a line of a sweep.
fn put_tally<K: Sink>(writer: &mut Writer<'_, K>, sweep: &Sweep, tally: Tally)
    ensures { Writes K.told (tally_picture sweep.now tally) writer.old writer.new }
{
    put_axis_if(writer, sweep, tally);
    put_bar(writer, tally);
    put_worst_if(writer, tally);
}

/// Draws the lines of a sweep.
fn put_tallies<K: Sink>(writer: &mut Writer<'_, K>, sweep: &Sweep, tallies: &[Tally])
    ensures { Writes K.told (flat_map (tally_picture sweep.now) tallies.now)
        writer.old writer.new }
{
    for i in 0..tallies.len() {
        put_tally(writer, sweep, tallies[i]);
    }
}

/// Writes a number on the left of a bar, and draws a line above it.
fn put_tick<K: Sink>(writer: &mut Writer<'_, K>, sweep: &Sweep, tick: Tick)
    ensures { Writes K.told (tick_picture sweep.now tick) writer.old writer.new }
{
    let x = bar_left(tick.column);
    let bottom = sweep_bottom(sweep);
    writer.pieces(&[
        Piece::Text(b"<path d='M"),
        Piece::Number(x),
        Piece::Text(b" 36V"),
        Piece::Number(bottom),
        Piece::Text(b"' stroke='gainsboro'/>\n<text x='"),
        Piece::Number(x),
        Piece::Text(b"' y='"),
        Piece::Number(bottom + 4),
        Piece::Text(b"'>"),
        Piece::Number(tick.number),
        Piece::Text(b"</text>\n"),
    ]);
}

/// Draws all of these lines and numbers.
fn put_ticks<K: Sink>(writer: &mut Writer<'_, K>, sweep: &Sweep, ticks: &[Tick])
    ensures { Writes K.told (flat_map (tick_picture sweep.now) ticks.now)
        writer.old writer.new }
{
    for i in 0..ticks.len() {
        put_tick(writer, sweep, ticks[i]);
    }
}

/// Draws a line through all bands, and writes the bound below it.
fn put_bound_mark<K: Sink>(writer: &mut Writer<'_, K>, sweep: &Sweep)
    ensures { Writes K.told (bound_picture sweep.now) writer.old writer.new }
{
    let x = bound_middle(sweep);
    let bottom = sweep_bottom(sweep);
    writer.pieces(&[
        Piece::Text(b"<path d='M"),
        Piece::Number(x),
        Piece::Text(b" 36V"),
        Piece::Number(bottom + 8),
        Piece::Text(b"' stroke='firebrick'/>\n<text text-anchor='end' x='"),
        Piece::Number(x),
        Piece::Text(b"' y='"),
        Piece::Number(bottom + 18),
        Piece::Text(b"'>T "),
        Piece::Number(sweep.bound),
        Piece::Text(beyond_words(sweep)),
        Piece::Text(b"</text>\n"),
    ]);
}

/// Writes what stands below the bands.
fn put_foot<K: Sink>(writer: &mut Writer<'_, K>, sweep: &Sweep)
    ensures { Writes K.told (sweep_foot sweep.now) writer.old writer.new }
{
    let bottom = sweep_bottom(sweep);
    writer.pieces(&[
        Piece::Text(b"<text x='"),
        Piece::Number(none_middle(sweep)),
        Piece::Text(b"' y='"),
        Piece::Number(bottom + 4),
        Piece::Text(b"'>none</text>\n<text text-anchor='start' x='4' y='"),
        Piece::Number(bottom + 36),
        Piece::Text(
            b"'>rounds from the begin of the era to its first locked configuration; \
                a bar stands for ",
        ),
        Piece::Number(u64::from(sweep.span)),
        Piece::Text(b"</text>\n</svg>\n"),
    ]);
}

impl Figure for Sweep {
    ghost use Rattle.run_pictures.specs.Sweeps.{sweep_text, IsSweepLaid};
    ghost use Rattle.run_pictures.specs.SweepPictures.{sweep_picture};

    ghost text = { sweep_text };

    ghost picture = { sweep_picture };

    ghost laid = { IsSweepLaid };

    fn put_text<K: Sink>(&self, writer: &mut Writer<'_, K>) {
        put_bound(writer, self.bound);
        put_tally_lines(writer, self.lines());
    }

    fn put_picture<K: Sink>(&self, writer: &mut Writer<'_, K>) {
        let width = (sweep_right(self) + 8).max(640);
        put_front(writer, width, sweep_bottom(self) + 44);
        put_ground(writer);
        put_ticks(writer, self, self.numbers());
        put_bound_mark(writer, self);
        put_tallies(writer, self, self.lines());
        put_foot(writer, self);
    }

    fn is_laid(&self) -> bool {
        is_sweep_laid(self)
    }
}
