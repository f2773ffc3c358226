//! Draws the marks of eras, and the lines below the cells.

ghost use Rattle.std.specs.Prelude.{◌≡◌, ◌<◌, ◌^◌};
ghost use Rattle.std.specs.List.{flat_map};
ghost use Rattle.edge_io.specs.Writing.{Writes};
ghost use Rattle.run_pictures.specs.Pictures.{bound_at, bound_mark};
ghost use Rattle.run_pictures.specs.Pictures.{end_picture, era_begin, era_mark};
ghost use Rattle.run_pictures.specs.Pictures.{has_column, is_before, locked_mark, mark_row};

use crate::charts::{Chart, End};
use crate::printing::put_end;
use edge_io::{Piece, Sink, Writer};
use picture_parts::{Frame, bottom, line_top, put_mark_at};

/// Whether a configuration has a column.
fn has_column(frame: Frame, t: u64) -> bool
    ensures { result ≡ has_column frame t }
{
    u64::from(frame.first) <= t && t < u64::from(frame.first) + u64::from(frame.columns)
}

/// Draws a mark at a configuration, if that has a row.
fn put_mark_row<'a, K: Sink>(
    writer: &mut Writer<'_, K>,
    chart: &Chart,
    t: u64,
    below: u16,
    colour: &'a [u8],
    word: &'a [u8],
)
    ensures { Writes K.told (mark_row chart.now t below colour.now word.now)
        writer.old writer.new }
{
    let frame = chart.frame();
    if has_column(frame, t) {
        let column = (t - u64::from(chart.first)) as u32;
        put_mark_at(
            writer,
            frame,
            column,
            line_top(chart.nodes),
            below,
            colour,
            word,
        );
    }
}

/// Where an era begins.
fn era_begin(era: Option<u32>) -> u64
    ensures value { result ≡ era_begin era }
    ensures most { result < 2 ^ 32 }
{
    match era {
        Some(begin) => u64::from(begin),
        None => 0,
    }
}

/// Draws where an era begins.
fn put_era_mark<K: Sink>(writer: &mut Writer<'_, K>, chart: &Chart, era: Option<u32>)
    ensures { Writes K.told (era_mark chart.now era) writer.old writer.new }
{
    match era {
        Some(begin) => put_mark_row(writer, chart, u64::from(begin), 12, b"black", b"era"),
        None => {}
    }
}

/// Whether a configuration is before the next era, if there is one.
fn is_before(t: u64, next: Option<u32>) -> bool
    ensures { result ≡ is_before t next }
{
    match next {
        Some(next) => t < u64::from(next),
        None => true,
    }
}

/// Draws the bound at a configuration, if that is before the next era.
fn put_bound_at<K: Sink>(writer: &mut Writer<'_, K>, chart: &Chart, t: u64, next: Option<u32>)
    ensures { Writes K.told (bound_at chart.now t next) writer.old writer.new }
{
    if is_before(t, next) {
        put_mark_row(writer, chart, t, 24, b"firebrick", b"bound");
    }
}

/// Draws the bound, counted from where an era begins, if the era is so long. A bound after all
/// columns has none.
fn put_bound_mark<K: Sink>(writer: &mut Writer<'_, K>, chart: &Chart, end: End)
    ensures { Writes K.told (bound_mark chart.now end) writer.old writer.new }
{
    let behind = u64::from(chart.first) + u64::from(chart.rows);
    if chart.bound < behind {
        put_bound_at(writer, chart, era_begin(end.era) + chart.bound, end.next);
    }
}

/// Draws the first locked configuration.
fn put_locked_mark<K: Sink>(writer: &mut Writer<'_, K>, chart: &Chart, locked: Option<u32>)
    ensures { Writes K.told (locked_mark chart.now locked) writer.old writer.new }
{
    match locked {
        Some(t) => put_mark_row(writer, chart, u64::from(t), 36, b"darkgreen", b"locked"),
        None => {}
    }
}

/// Draws what a line after the rows says.
fn put_end_picture<K: Sink>(writer: &mut Writer<'_, K>, chart: &Chart, end: End)
    ensures { Writes K.told (end_picture chart.now end) writer.old writer.new }
{
    put_era_mark(writer, chart, end.era);
    put_bound_mark(writer, chart, end);
    put_locked_mark(writer, chart, end.locked);
    writer.pieces(&[
        Piece::Text(b"<text text-anchor='start' x='4' y='"),
        Piece::Number(bottom(chart.frame()) + 60 + 16 * u64::from(end.place)),
        Piece::Text(b"'>"),
    ]);
    put_end(writer, end);
    writer.text(b"</text>\n");
}

/// Draws what the lines after the rows say.
pub fn put_ends<K: Sink>(writer: &mut Writer<'_, K>, chart: &Chart, ends: &[End])
    ensures { Writes K.told (flat_map (end_picture chart.now) ends.now)
        writer.old writer.new }
{
    for i in 0..ends.len() {
        put_end_picture(writer, chart, ends[i]);
    }
}
