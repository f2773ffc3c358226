//! Draws a trace.

ghost use Rattle.std.specs.Prelude.{◌≡◌};
ghost use Rattle.std.specs.List.{flat_map};
ghost use Rattle.edge_io.specs.Writing.{Writes};
ghost use Rattle.trace_pictures.specs.TracePictures.{are_groups, bands, blocks_words, dots};
ghost use Rattle.trace_pictures.specs.TracePictures.{group_height, group_legend, group_legend_if};
ghost use Rattle.trace_pictures.specs.TracePictures.{legend, legend_below, level_caption};
ghost use Rattle.trace_pictures.specs.TracePictures.{start_mark};

use crate::strips::{put_note_pictures, put_titles};
use crate::trace_laid::is_trace_laid;
use crate::trace_printing::{put_note, put_strip};
use crate::traces::{Level, StripName, Trace};
use crate::turns::put_reigns;
use edge_io::{Piece, Sink, Writer};
use picture_parts::{
    Figure, Frame, bottom, picture_width, put_colour_legend, put_front, put_ground, put_mark_at,
    put_number_caption, put_span,
};

/// Writes the dots on what is marked.
fn put_dots<K: Sink>(writer: &mut Writer<'_, K>)
    ensures { Writes K.told dots writer.old writer.new }
{
    writer.text(
        b"<defs><pattern id='marked' width='5' height='5' patternUnits='userSpaceOnUse'>\
        <circle cx='2' cy='2' r='1' fill='#3a6ea5'/></pattern></defs>\n",
    );
}

/// Draws where eras must begin.
fn put_starts<K: Sink>(writer: &mut Writer<'_, K>, frame: Frame, cells: u32, eras: &[u32])
    ensures { Writes K.told (flat_map (start_mark frame cells) eras.now)
        writer.old writer.new }
{
    for i in 0..eras.len() {
        put_mark_at(writer, frame, eras[i], cells, 12, b"black", b"era");
    }
}

/// Writes how many blocks a level has, if that is known.
fn put_blocks<K: Sink>(writer: &mut Writer<'_, K>, blocks: Option<u64>)
    ensures { Writes K.told (blocks_words blocks) writer.old writer.new }
{
    match blocks {
        Some(blocks) => writer.pieces(&[
            Piece::Text(b" blocks "),
            Piece::Number(blocks),
            Piece::Text(b"</text>\n"),
        ]),
        None => writer.text(b"</text>\n"),
    }
}

/// Writes a strip's caption.
fn put_level<K: Sink>(writer: &mut Writer<'_, K>, frame: Frame, level: Level)
    ensures { Writes K.told (level_caption frame level) writer.old writer.new }
{
    writer.pieces(&[
        Piece::Text(b"<text text-anchor='start' x='4' y='"),
        Piece::Number(bottom(frame) + 44 + 16 * u64::from(level.place)),
        Piece::Text(b"'>"),
    ]);
    put_strip(writer, level.name);
    put_blocks(writer, level.blocks);
}

/// Writes the captions of all strips.
fn put_levels<K: Sink>(writer: &mut Writer<'_, K>, frame: Frame, levels: &[Level])
    ensures { Writes K.told (flat_map (level_caption frame) levels.now)
        writer.old writer.new }
{
    for i in 0..levels.len() {
        put_level(writer, frame, levels[i]);
    }
}

/// Writes what the registers and the kings' phases mean.
fn put_legend<K: Sink>(writer: &mut Writer<'_, K>, y: u64)
    ensures { Writes K.told (legend y) writer.old writer.new }
{
    writer.pieces(&[
        Piece::Text(b"<g text-anchor='start' transform='translate(4,"),
        Piece::Number(y),
        Piece::Text(
            b")'>\n<rect width='18' height='18' fill='whitesmoke'/>\
                <path d='M6 6l6 6m0 -6l-6 6' stroke='dimgray'/>\
                <text x='24' y='13'>no value</text>\n\
                <rect x='110' width='18' height='18' fill='#fde9b0'/>\
                <text x='134' y='13'>unmarked</text>\n\
                <rect y='22' width='18' height='18' fill='#b5d3f2'/>\
                <rect y='22' width='18' height='18' fill='url(#marked)'/>\
                <text x='24' y='35'>marked</text>\n\
                <rect x='110' y='22' width='18' height='18' fill='#a6dba0'/>\
                <path d='M112 24h14v14H112z' fill='none' stroke='darkgreen' stroke-width='2'/>\
                <text x='134' y='35'>locked</text>\n\
                <rect y='44' width='18' height='18' fill='url(#faulty)'/>\
                <text x='24' y='57'>faulty</text>\n\
                <rect x='110' y='44' width='18' height='18' fill='silver'/>\
                <path d='M110 44h8l-8 8z'/>\
                <text x='134' y='57'>hit by an era's start</text>\n\
                <path d='M0 68h6v14H0zM18 68h12v14H18zM36 68h18v14H36z' fill='gold'/>\
                <path d='M0 68h18v14H0zM18 68h18v14H18zM36 68h18v14H36z' \
                fill='none' stroke='black'/>\
                <text x='60' y='79'>a king's turn: keep, mark, king</text>\n\
                <path d='M0 88h18v14H0z' fill='none' stroke='black' stroke-dasharray='2'/>\
                <text x='24' y='99'>a turn that not all obey</text>\n</g>\n",
        ),
    ]);
}

/// Writes what is drawn of groups.
fn put_group_legend<K: Sink>(writer: &mut Writer<'_, K>, y: u64)
    ensures { Writes K.told (group_legend y) writer.old writer.new }
{
    writer.pieces(&[
        Piece::Text(b"<g text-anchor='start' transform='translate(4,"),
        Piece::Number(y),
        Piece::Text(
            b")'>\n<rect width='18' height='18' fill='gainsboro'/>\
                <text x='42' y='13'>in a group with too many liars</text>\n\
                <path d='M0 24h18v8H0z' fill='#c6dbef'/>\
                <path d='M18 24h18v8H18z' fill='#4292c6'/>\
                <text x='42' y='32'>the left half's share; trusted</text>\n\
                <path d='M0 38h18v8H0z' fill='#fdd0a2'/>\
                <path d='M18 38h18v8H18z' fill='#f16913'/>\
                <text x='42' y='46'>the right half's share; trusted</text>\n\
                <path d='M12 54v4l-6 -2zM24 54v4l6 -2z' stroke='black'/>\
                <text x='42' y='60'>follows the left, the right half</text>\n\
                <path d='M12 68v4l-6 -2zM24 68v4l6 -2z' fill='white' stroke='black'/>\
                <text x='42' y='74'>what it saw is not backed</text>\n</g>\n",
        ),
    ]);
}

/// Whether strips are those of groups.
fn are_groups(levels: &[Level]) -> bool
    ensures { result ≡ are_groups levels.now }
{
    match levels {
        [] => false,
        [level, ..] => match level.name {
            StripName::Level(_) => false,
            StripName::Group(_) => true,
        },
    }
}

/// How high what is said of groups is.
fn group_height(are_groups: bool) -> u64
    ensures { result ≡ group_height are_groups }
{
    match are_groups {
        true => 86,
        false => 0,
    }
}

/// Writes what is drawn of groups, if there are any.
fn put_group_legend_if<K: Sink>(writer: &mut Writer<'_, K>, are_groups: bool, y: u64)
    ensures { Writes K.told (group_legend_if are_groups y) writer.old writer.new }
{
    if are_groups {
        put_group_legend(writer, y);
    }
}

/// Writes what the colours and the cells mean, below the captions of these strips.
fn put_legend_below<K: Sink>(writer: &mut Writer<'_, K>, frame: Frame, levels: &[Level])
    ensures { Writes K.told (legend_below frame levels.now) writer.old writer.new }
{
    let lines = 16 * levels.len() as u64;
    put_colour_legend(writer, bottom(frame) + 40 + lines);
    put_legend(writer, bottom(frame) + 62 + lines);
    put_group_legend_if(writer, are_groups(levels), bottom(frame) + 172 + lines);
}

/// Draws all that is within the bands.
fn put_bands<K: Sink>(writer: &mut Writer<'_, K>, trace: &Trace)
    ensures { Writes K.told (bands trace.now) writer.old writer.new }
{
    put_note_pictures(writer, trace.frame, trace.lines());
    put_reigns(writer, trace.frame, trace.turns());
    put_titles(writer, trace.frame, trace.heads());
    put_starts(writer, trace.frame, trace.cells, trace.starts());
}

impl Figure for Trace {
    ghost use Rattle.trace_pictures.specs.Traces.{trace_text};
    ghost use Rattle.trace_pictures.specs.TracePictures.{trace_picture};
    ghost use Rattle.trace_pictures.specs.TraceLaid.{IsTraceLaid};

    ghost text = { trace_text };

    ghost picture = { trace_picture };

    ghost laid = { IsTraceLaid };

    fn put_text<K: Sink>(&self, writer: &mut Writer<'_, K>) {
        let first = self.frame.first;
        let notes = self.lines();
        for note in notes {
            put_note(writer, first, note);
        }
    }

    fn put_picture<K: Sink>(&self, writer: &mut Writer<'_, K>) {
        let frame = self.frame;
        let bottom = bottom(frame);
        let levels = self.captions();
        let groups = group_height(are_groups(levels));
        let height = bottom + 168 + 16 * levels.len() as u64 + groups;
        put_front(writer, picture_width(frame), height);
        put_ground(writer);
        put_dots(writer);
        put_bands(writer, self);
        put_span(writer, frame);
        put_number_caption(writer, bottom + 28, b"nodes", u64::from(self.nodes));
        put_levels(writer, frame, levels);
        put_legend_below(writer, frame, levels);
        writer.text(b"</svg>\n");
    }

    fn is_laid(&self) -> bool {
        is_trace_laid(self)
    }
}
