//! Draws a choice.

ghost use Rattle.std.specs.Prelude.{◌≡◌, ◌≤◌, ◌<◌, ◌^◌, ◌+◌, ◌*◌, length, max};
ghost use Rattle.std.specs.Prelude.{if◌then◌else◌};
ghost use Rattle.edge_io.specs.Writing.{Writes};
ghost use Rattle.run_pictures.specs.ChoicePictures.{choice_in, decade_line};
ghost use Rattle.run_pictures.specs.ChoicePictures.{decade_lines, decades_of, faults_words};
ghost use Rattle.run_pictures.specs.ChoicePictures.{heading, mark_word, nodes_axis};
ghost use Rattle.run_pictures.specs.ChoicePictures.{numbers_top, point_at, point_left, point_mark};
ghost use Rattle.run_pictures.specs.ChoicePictures.{point_numbers, point_top, points_picture};
ghost use Rattle.run_pictures.specs.Choices.{is_halving};

use crate::choices::{Choice, Point, are_plotted, is_halving, put_point_words};
use edge_io::{Piece, Sink, Writer};
use picture_parts::{Figure, put_front, put_ground};

// ---- where the plans stand

/// How many decades the bounds of these plans take.
fn decades_of(points: &[Point<'_>]) -> u64
    ensures value { result ≡ decades_of points.now }
    ensures most { result ≤ 2 ^ 32 }
{
    match points {
        [] => 0,
        [point, points @ ..] => (u64::from(point.decade) + 1).max(decades_of(points)),
    }
}

/// How far below the top a bound stands, above the axis of nodes.
fn point_top(base: u64, point: &Point<'_>) -> u64
    ensures value { result ≡ point_top base point.now }
    ensures most { result ≤ base }
{
    let height = 36 * u64::from(point.decade) + u64::from(point.part.saturating_sub(10)) * 2 / 5;
    base.saturating_sub(height)
}

/// How far on the right a plan stands.
fn point_left(point: &Point<'_>) -> u64
    ensures value { result ≡ point_left point.now }
    ensures most { result < 2 ^ 40 }
{
    60 + 2 * u64::from(point.nodes)
}

/// How far below the top its numbers stand, below those of the boosting plan before it.
fn numbers_top(base: u64, last: u64, point: &Point<'_>) -> u64
    requires base { base < 2 ^ 63 }
    requires last { last < 2 ^ 63 }
    ensures value { result ≡ numbers_top base last point.now }
    ensures least { 4 ≤ result }
    ensures most { result ≤ max (base + 4) (last + 13) }
{
    (point_top(base, point) + 4).max(last + 13)
}

/// How far below the top those of the last boosting plan stand, up to this plan.
fn last_behind(last: u64, numbers: u64, point: &Point<'_>) -> u64
    ensures value { result ≡ if is_halving point.now then last else numbers }
    ensures most { result ≤ max last numbers }
{
    if is_halving(*point) { last } else { numbers }
}

// ---- plans

/// The rest of a plan's mark.
fn mark_word(is_halving: bool) -> &'static [u8]
    ensures { result.now ≡ mark_word is_halving }
{
    match is_halving {
        true => b"m-4 -4h8v8h-8z' fill='darkorange'/>\n",
        false => b"m0 -5l5 5l-5 5l-5 -5z' fill='steelblue'/>\n",
    }
}

/// Draws the mark of a plan, and a line from it to its numbers.
fn put_mark<K: Sink>(writer: &mut Writer<'_, K>, base: u64, numbers: u64, point: &Point<'_>)
    requires { 4 ≤ numbers }
    ensures { Writes K.told (point_mark base numbers point.now) writer.old writer.new }
{
    let x = point_left(point);
    let y = point_top(base, point);
    writer.pieces(&[
        Piece::Text(b"</title>\n<path d='M"),
        Piece::Number(x),
        Piece::Text(b" "),
        Piece::Number(y),
        Piece::Text(b"L"),
        Piece::Number(x + 9),
        Piece::Text(b" "),
        Piece::Number(numbers - 4),
        Piece::Text(b"' stroke='gray'/>\n<path d='M"),
        Piece::Number(x),
        Piece::Text(b" "),
        Piece::Number(y),
        Piece::Text(mark_word(is_halving(*point))),
    ]);
}

/// Writes the numbers of a plan.
fn put_numbers<K: Sink>(writer: &mut Writer<'_, K>, numbers: u64, point: &Point<'_>)
    ensures { Writes K.told (point_numbers numbers point.now) writer.old writer.new }
{
    writer.pieces(&[
        Piece::Text(b"<text text-anchor='start' x='"),
        Piece::Number(point_left(point) + 11),
        Piece::Text(b"' y='"),
        Piece::Number(numbers),
        Piece::Text(b"'>"),
        Piece::Number(u64::from(point.nodes)),
        Piece::Text(b" nodes, T "),
        Piece::Number(point.bound),
        Piece::Text(b"</text></g>\n"),
    ]);
}

/// Draws a plan, with its line as the title.
fn put_point<K: Sink>(writer: &mut Writer<'_, K>, base: u64, numbers: u64, point: &Point<'_>)
    requires { 4 ≤ numbers }
    ensures { Writes K.told (point_at base numbers point.now) writer.old writer.new }
{
    writer.text(b"<g><title>");
    put_point_words(writer, point);
    put_mark(writer, base, numbers, point);
    put_numbers(writer, numbers, point);
}

/// Draws all plans.
fn put_points<K: Sink>(writer: &mut Writer<'_, K>, base: u64, last: u64, points: &[Point<'_>])
    requires base { base + 13 * length points.now < 2 ^ 63 }
    requires last { last + 13 * length points.now < 2 ^ 63 }
    ensures { Writes K.told (points_picture base last points.now) writer.old writer.new }
{
    match points {
        [] => {}
        [point, points @ ..] => {
            let numbers = numbers_top(base, last, point);
            put_point(writer, base, numbers, point);
            put_points(writer, base, last_behind(last, numbers, point), points);
        }
    }
}

// ---- axes

/// Writes how many faults the plans tolerate.
fn put_faults<K: Sink>(writer: &mut Writer<'_, K>, faults: Option<u64>)
    ensures { Writes K.told (faults_words faults) writer.old writer.new }
{
    match faults {
        None => {}
        Some(faults) => writer.pieces(&[Piece::Text(b" for F = "), Piece::Number(faults)]),
    }
}

/// Writes what the picture is of.
fn put_heading<K: Sink>(writer: &mut Writer<'_, K>, faults: Option<u64>)
    ensures { Writes K.told (heading faults) writer.old writer.new }
{
    writer.text(b"<text x='310' y='14'>the bound T of plans");
    put_faults(writer, faults);
    writer.text(b", by their nodes</text>\n");
}

/// Draws lines for every 50 nodes, and writes numbers and what the marks mean below them.
fn put_nodes_axis<K: Sink>(writer: &mut Writer<'_, K>, base: u64, high: u64)
    ensures { Writes K.told (nodes_axis base high) writer.old writer.new }
{
    writer.pieces(&[
        Piece::Text(b"<g transform='translate(0,"),
        Piece::Number(base),
        Piece::Text(b")'>\n<path d='M60 0v-"),
        Piece::Number(high),
        Piece::Text(b"M160 0v-"),
        Piece::Number(high),
        Piece::Text(b"M260 0v-"),
        Piece::Number(high),
        Piece::Text(b"M360 0v-"),
        Piece::Number(high),
        Piece::Text(b"M460 0v-"),
        Piece::Number(high),
        Piece::Text(b"M560 0v-"),
        Piece::Number(high),
        Piece::Text(
            b"' stroke='gainsboro'/>\n\
                <text x='60' y='18'>0</text><text x='160' y='18'>50</text>\
                <text x='260' y='18'>100</text><text x='360' y='18'>150</text>\
                <text x='460' y='18'>200</text><text x='560' y='18'>250</text>\
                <text x='310' y='34'>nodes</text>\n\
                <path d='M64 52m-4 -4h8v8h-8z' fill='darkorange'/>\
                <text x='76' y='56' text-anchor='start'>halving</text>\n\
                <path d='M164 52m0 -5l5 5l-5 5l-5 -5z' fill='steelblue'/>\
                <text x='176' y='56' text-anchor='start'>boosting</text>\n</g>\n",
        ),
    ]);
}

/// Draws a line for a decade of T, and writes its number.
fn put_decade<K: Sink>(writer: &mut Writer<'_, K>, base: u64, decade: u64)
    requires base { base < 2 ^ 63 }
    requires high { 36 * decade ≤ base }
    ensures { Writes K.told (decade_line base decade) writer.old writer.new }
{
    let y = base - 36 * decade;
    writer.pieces(&[
        Piece::Text(b"<path d='M60 "),
        Piece::Number(y),
        Piece::Text(b"H572' stroke='gainsboro'/><text text-anchor='end' x='54' y='"),
        Piece::Number(y + 4),
        Piece::Text(b"'>1e"),
        Piece::Number(decade),
        Piece::Text(b"</text>\n"),
    ]);
}

/// Draws those of all decades.
fn put_decades<K: Sink>(writer: &mut Writer<'_, K>, base: u64, decades: u64)
    requires base { base < 2 ^ 63 }
    requires high { 36 * decades ≤ base }
    ensures { Writes K.told (decade_lines base decades) writer.old writer.new }
{
    for decade in 0..decades + 1 {
        put_decade(writer, base, decade);
    }
}

// ---- the picture

/// Draws a choice on its axes.
fn put_choice_in<K: Sink>(
    writer: &mut Writer<'_, K>,
    base: u64,
    decades: u64,
    choice: &Choice<'_>,
    points: &[Point<'_>],
)
    requires all { points.now ≡ choice.now.points.items }
    requires low { base + 13 * length points.now < 2 ^ 63 }
    requires high { 36 * decades ≤ base }
    ensures { Writes K.told (choice_in base decades choice.now) writer.old writer.new }
{
    put_front(writer, 780, base + 70);
    put_ground(writer);
    put_heading(writer, choice.faults);
    put_nodes_axis(writer, base, 36 * decades);
    put_decades(writer, base, decades);
    put_points(writer, base, 0, points);
    writer.text(b"</svg>\n");
}

impl Figure for Choice<'_> {
    ghost use Rattle.run_pictures.specs.Choices.{choice_text, IsChoiceLaid};
    ghost use Rattle.run_pictures.specs.ChoicePictures.{choice_picture};

    ghost text = { choice_text };

    ghost picture = { choice_picture };

    ghost laid = { IsChoiceLaid };

    fn put_text<K: Sink>(&self, writer: &mut Writer<'_, K>) {
        let points: &[Point<'_>] = &self.points;
        for i in 0..points.len() {
            put_point_words(writer, &points[i]);
            writer.text(b"\n");
        }
    }

    fn put_picture<K: Sink>(&self, writer: &mut Writer<'_, K>) {
        let points: &[Point<'_>] = &self.points;
        let decades = decades_of(points);
        put_choice_in(writer, 24 + 36 * decades, decades, self, points);
    }

    fn is_laid(&self) -> bool {
        let points: &[Point<'_>] = &self.points;
        if points.is_empty() {
            return false;
        }
        are_plotted(points)
    }
}
