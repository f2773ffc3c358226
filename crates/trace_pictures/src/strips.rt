//! Draws the strips of a trace.

ghost use Rattle.std.specs.Prelude.{◌≡◌};
ghost use Rattle.std.specs.List.{flat_map};
ghost use Rattle.edge_io.specs.Writing.{Writes};
ghost use Rattle.trace_pictures.specs.Strips.{cell_in, cover, face_in, ground, held_cell};
ghost use Rattle.trace_pictures.specs.Strips.{member_in, note_head, note_picture, register_at};
ghost use Rattle.trace_pictures.specs.Strips.{register_in, seen_cell, sound_in, title_picture};
ghost use Rattle.trace_pictures.specs.Strips.{title_word, unsound_in, value_text};

use crate::shares::{put_arrow_if, put_share};
use crate::trace_printing::{put_register, put_strip, side_word};
use crate::traces::{Held, LeftSeen, Note, Register, Seen, StripName, Title};
use edge_io::{Piece, Sink, Writer};
use picture_parts::{
    CellPosition, Face, Frame, band_top, left, middle, put_column_head, put_cross, put_hover_front,
    put_node_label, put_number_at, put_rectangle, put_shown, spot_top, width,
};

/// Writes the ground of a register.
fn put_register_ground<K: Sink>(writer: &mut Writer<'_, K>, value: Option<u64>, held: Held)
    ensures { Writes K.told (ground value held) writer.old writer.new }
{
    match value {
        None => writer.text(b"whitesmoke'/>\n"),
        Some(_) => match held {
            Held::Unmarked => writer.text(b"#fde9b0'/>\n"),
            Held::Marked => writer.text(b"#b5d3f2'/>\n"),
            Held::Locked => writer.text(b"#a6dba0'/>\n"),
        },
    }
}

/// Draws what lies on it: nothing, dots, or a frame.
fn put_cover<K: Sink>(writer: &mut Writer<'_, K>, spot: CellPosition, held: Held)
    ensures { Writes K.told (cover spot held) writer.old writer.new }
{
    let x = left(spot);
    let y = spot_top(spot);
    let wide = width(spot);
    match held {
        Held::Unmarked => {}
        Held::Marked => writer.pieces(&[
            Piece::Text(b"<path d='M"),
            Piece::Number(x),
            Piece::Text(b" "),
            Piece::Number(y),
            Piece::Text(b"h"),
            Piece::Number(wide),
            Piece::Text(b"v18H"),
            Piece::Number(x),
            Piece::Text(b"z' fill='url(#marked)'/>\n"),
        ]),
        Held::Locked => writer.pieces(&[
            Piece::Text(b"<path d='M"),
            Piece::Number(x + 2),
            Piece::Text(b" "),
            Piece::Number(y + 2),
            Piece::Text(b"h"),
            Piece::Number(wide - 4),
            Piece::Text(b"v14H"),
            Piece::Number(x + 2),
            Piece::Text(b"z' fill='none' stroke='darkgreen' stroke-width='2'/>\n"),
        ]),
    }
}

/// Writes a value, or a cross.
fn put_value<K: Sink>(writer: &mut Writer<'_, K>, spot: CellPosition, value: Option<u64>)
    ensures { Writes K.told (value_text spot value) writer.old writer.new }
{
    match value {
        Some(value) => put_number_at(writer, middle(spot), spot_top(spot) + 13, value),
        None => put_cross(writer, spot),
    }
}

/// Draws a register of a group that is not sound: how it holds its value says nothing there.
fn put_unsound_in<K: Sink>(writer: &mut Writer<'_, K>, spot: CellPosition, value: Option<u64>)
    ensures { Writes K.told (unsound_in spot value) writer.old writer.new }
{
    put_rectangle(writer, spot);
    writer.text(b"gainsboro'/>\n");
    put_value(writer, spot, value);
}

/// Draws a register within its cell.
fn put_register_in<K: Sink>(
    writer: &mut Writer<'_, K>,
    spot: CellPosition,
    value: Option<u64>,
    held: Held,
)
    ensures { Writes K.told (register_in spot value held) writer.old writer.new }
{
    put_rectangle(writer, spot);
    put_register_ground(writer, value, held);
    put_cover(writer, spot, held);
    put_value(writer, spot, value);
}

/// Draws a register of a group, by whether that is sound.
fn put_sound_in<K: Sink>(
    writer: &mut Writer<'_, K>,
    spot: CellPosition,
    register: &Register,
    is_sound: bool,
)
    ensures { Writes K.told (sound_in spot register.now is_sound) writer.old writer.new }
{
    match is_sound {
        true => put_register_in(writer, spot, register.value, register.held),
        false => put_unsound_in(writer, spot, register.value),
    }
}

/// Draws a register of a group, and below it what its node saw of the left half, and whom it
/// follows.
fn put_member_in<K: Sink>(
    writer: &mut Writer<'_, K>,
    spot: CellPosition,
    register: &Register,
    own: LeftSeen,
)
    ensures { Writes K.told (member_in spot register.now own) writer.old writer.new }
{
    put_sound_in(writer, spot, register, own.is_sound);
    put_share(writer, spot, own);
    put_arrow_if(writer, spot, &register.heard);
}

/// Draws a register, of a level or of a group.
fn put_cell_in<K: Sink>(writer: &mut Writer<'_, K>, spot: CellPosition, register: &Register)
    ensures { Writes K.told (cell_in spot register.now register.now.own) writer.old writer.new }
{
    match register.own {
        None => put_register_in(writer, spot, register.value, register.held),
        Some(own) => put_member_in(writer, spot, register, own),
    }
}

/// Draws a register, with what is said of it when the pointer rests on it.
fn put_register_at<K: Sink>(
    writer: &mut Writer<'_, K>,
    spot: CellPosition,
    node: u64,
    register: &Register,
)
    ensures { Writes K.told (register_at spot node register.now) writer.old writer.new }
{
    put_hover_front(writer, spot, node);
    writer.text(b":");
    put_register(writer, register);
    writer.text(b"</title>\n");
    put_cell_in(writer, spot, register);
    writer.text(b"</g>\n");
}

/// What is drawn of an output: that of a faulty node counts for nothing, and if a node has no value
/// it shows none.
fn face_in(is_faulty: bool, is_lost: bool, output: u64) -> Face
    ensures { result ≡ face_in is_faulty is_lost output }
{
    match (is_faulty, is_lost) {
        (true, _) => Face::Faulty,
        (false, true) => Face::Nothing,
        (false, false) => Face::Value(output),
    }
}

/// Draws the register of a line. A faulty node is hatched, whatever it holds.
fn put_held_cell<K: Sink>(
    writer: &mut Writer<'_, K>,
    spot: CellPosition,
    node: u64,
    is_faulty: bool,
    register: &Register,
)
    ensures { Writes K.told (held_cell spot node is_faulty register.now)
        writer.old writer.new }
{
    match is_faulty {
        true => put_shown(writer, spot, node, Face::Faulty, false),
        false => put_register_at(writer, spot, node, register),
    }
}

/// Draws what a line is about.
fn put_seen_cell<K: Sink>(writer: &mut Writer<'_, K>, spot: CellPosition, note: &Note, seen: &Seen)
    ensures { Writes K.told (seen_cell spot note.now seen.now) writer.old writer.new }
{
    match seen {
        Seen::Shows(shown) => put_shown(
            writer,
            spot,
            note.node,
            face_in(note.is_faulty, note.is_lost, shown.output),
            note.is_hit,
        ),
        Seen::Holds(register) => put_held_cell(writer, spot, note.node, note.is_faulty, register),
    }
}

/// Writes what stands above a column, with its first line.
fn put_note_head<K: Sink>(writer: &mut Writer<'_, K>, frame: Frame, note: &Note)
    ensures { Writes K.told (note_head frame note.now) writer.old writer.new }
{
    if note.is_first {
        put_column_head(writer, frame, note.column);
    }
}

/// Draws a line of a trace.
fn put_note_picture<K: Sink>(writer: &mut Writer<'_, K>, frame: Frame, note: &Note)
    ensures { Writes K.told (note_picture frame note.now) writer.old writer.new }
{
    let spot = CellPosition {
        frame,
        column: note.column,
        top: note.top,
    };
    put_note_head(writer, frame, note);
    put_node_label(writer, spot, note.node);
    put_seen_cell(writer, spot, note, &note.seen);
}

/// Draws all lines of a trace.
pub fn put_note_pictures<K: Sink>(writer: &mut Writer<'_, K>, frame: Frame, notes: &[Note])
    ensures { Writes K.told (flat_map (note_picture frame) notes.now)
        writer.old writer.new }
{
    for note in notes {
        put_note_picture(writer, frame, note);
    }
}

/// Writes the name of a strip, of a group without its nodes, which stand beside its lines.
fn put_title_word<K: Sink>(writer: &mut Writer<'_, K>, name: StripName)
    ensures { Writes K.told (title_word name) writer.old writer.new }
{
    match name {
        StripName::Level(_) => put_strip(writer, name),
        StripName::Group(group) => writer.text(side_word(group.side)),
    }
}

/// Writes the word before a strip.
fn put_title<K: Sink>(writer: &mut Writer<'_, K>, frame: Frame, title: Title)
    ensures { Writes K.told (title_picture frame title) writer.old writer.new }
{
    writer.pieces(&[
        Piece::Text(b"<text x='26' y='"),
        Piece::Number(band_top(frame.height, title.column) + u64::from(title.top) + 11),
        Piece::Text(b"'>"),
    ]);
    put_title_word(writer, title.name);
    writer.text(b"</text>\n");
}

/// Writes the words before all strips.
pub fn put_titles<K: Sink>(writer: &mut Writer<'_, K>, frame: Frame, titles: &[Title])
    ensures { Writes K.told (flat_map (title_picture frame) titles.now)
        writer.old writer.new }
{
    for i in 0..titles.len() {
        put_title(writer, frame, titles[i]);
    }
}
