//! Writes a trace as `trace` writes it.

ghost use Rattle.std.specs.Prelude.{◌≡◌};
ghost use Rattle.std.specs.List.{flat_map};
ghost use Rattle.edge_io.specs.Writing.{Writes};
ghost use Rattle.trace_pictures.specs.Traces.{backed_word, basis_words, beat_words, faulty_word};
ghost use Rattle.trace_pictures.specs.Traces.{following_words, group_words, half_word};
ghost use Rattle.trace_pictures.specs.Traces.{heard_or_nothing, heard_words, held_word, note_line};
ghost use Rattle.trace_pictures.specs.Traces.{number_or_none, output_words, own_or_nothing};
ghost use Rattle.trace_pictures.specs.Traces.{own_words, register_words, seen_words, side_word};
ghost use Rattle.trace_pictures.specs.Traces.{sound_word, strip_words, trust_word, turn_word};
ghost use Rattle.trace_pictures.specs.Traces.{vote_word};

use crate::traces::{
    Basis, Beat, Following, Group, Half, Heard, Held, LeftSeen, Note, Output, Register, Seen, Side,
    StripName, Turn,
};
use edge_io::{Piece, Sink, Writer};

/// What stands after the id of a faulty node.
pub fn faulty_word(is_faulty: bool) -> &'static [u8]
    ensures { result.now ≡ faulty_word is_faulty }
{
    match is_faulty {
        true => b" faulty",
        false => b"",
    }
}

/// How a register holds its value, as a word.
pub fn held_word(held: Held) -> &'static [u8]
    ensures { result.now ≡ held_word held }
{
    match held {
        Held::Unmarked => b" unmarked",
        Held::Marked => b" marked",
        Held::Locked => b" locked",
    }
}

/// What stands before the id of a king.
pub fn turn_word(turn: Turn) -> &'static [u8]
    ensures { result.now ≡ turn_word turn }
{
    match turn {
        Turn::Keep => b" keep king ",
        Turn::Mark => b" mark king ",
        Turn::King => b" king king ",
    }
}

/// Writes a number, or that there is none.
pub fn put_number_or_none<K: Sink>(writer: &mut Writer<'_, K>, n: Option<u64>)
    ensures { Writes K.told (number_or_none n) writer.old writer.new }
{
    match n {
        Some(n) => writer.number(n),
        None => writer.text(b"none"),
    }
}

/// Writes the votes of all blocks.
fn put_votes<K: Sink>(writer: &mut Writer<'_, K>, votes: &[u64])
    ensures { Writes K.told (flat_map vote_word votes.now) writer.old writer.new }
{
    for i in 0..votes.len() {
        writer.pieces(&[Piece::Text(b" "), Piece::Number(votes[i])]);
    }
}

/// Writes the beat that a node hears.
fn put_beat<K: Sink>(writer: &mut Writer<'_, K>, beat: &Beat)
    ensures { Writes K.told (beat_words beat.now) writer.old writer.new }
{
    writer.text(b" votes");
    put_votes(writer, &beat.votes);
    writer.pieces(&[
        Piece::Text(b" lead "),
        Piece::Number(beat.lead),
        Piece::Text(b" position "),
        Piece::Number(beat.position),
    ]);
}

/// One half of a group, as a word.
fn half_word(half: Half) -> &'static [u8]
    ensures { result.now ≡ half_word half }
{
    match half {
        Half::Left => b" left",
        Half::Right => b" right",
    }
}

/// Whether what a node saw is backed, as a word.
fn backed_word(is_backed: bool) -> &'static [u8]
    ensures { result.now ≡ backed_word is_backed }
{
    match is_backed {
        true => b" backed",
        false => b" unbacked",
    }
}

/// Writes which half a node follows.
fn put_following<K: Sink>(writer: &mut Writer<'_, K>, following: Following)
    ensures { Writes K.told (following_words following) writer.old writer.new }
{
    writer.pieces(&[
        Piece::Text(b" saw "),
        Piece::Number(following.saw),
        Piece::Text(backed_word(following.is_backed)),
        Piece::Text(b" follows"),
        Piece::Text(half_word(following.half)),
        Piece::Text(b" instruction "),
        Piece::Number(following.instruction),
    ]);
}

/// Writes by what a node has its instruction.
fn put_basis<K: Sink>(writer: &mut Writer<'_, K>, basis: &Basis)
    ensures { Writes K.told (basis_words basis.now) writer.old writer.new }
{
    match basis {
        Basis::Votes(beat) => put_beat(writer, beat),
        Basis::Follows(following) => put_following(writer, *following),
    }
}

/// Writes what a node makes of what it hears.
fn put_heard<K: Sink>(writer: &mut Writer<'_, K>, heard: &Heard)
    ensures { Writes K.told (heard_words heard.now) writer.old writer.new }
{
    put_basis(writer, &heard.basis);
    writer.pieces(&[
        Piece::Text(turn_word(heard.turn)),
        Piece::Number(heard.king),
        Piece::Text(b" same "),
        Piece::Number(heard.same),
        Piece::Text(b" least "),
    ]);
    put_number_or_none(writer, heard.least);
}

/// Writes what a node hears, if that is there.
fn put_heard_or_nothing<K: Sink>(writer: &mut Writer<'_, K>, heard: &Option<Heard>)
    ensures { Writes K.told (heard_or_nothing heard.now) writer.old writer.new }
{
    match heard {
        Some(heard) => put_heard(writer, heard),
        None => {}
    }
}

/// Writes what a node shows.
pub fn put_output<K: Sink>(writer: &mut Writer<'_, K>, shown: Output)
    ensures { Writes K.told (output_words shown) writer.old writer.new }
{
    writer.text(b" number ");
    put_number_or_none(writer, shown.number);
    writer.pieces(&[Piece::Text(b" output "), Piece::Number(shown.output)]);
}

/// Which group of a plan it is, as a word.
pub fn side_word(side: Side) -> &'static [u8]
    ensures { result.now ≡ side_word side }
{
    match side {
        Side::Whole => b" whole ",
        Side::Left => b" left ",
        Side::Right => b" right ",
    }
}

/// Writes which group it is.
fn put_group<K: Sink>(writer: &mut Writer<'_, K>, group: Group)
    ensures { Writes K.told (group_words group) writer.old writer.new }
{
    writer.pieces(&[
        Piece::Text(side_word(group.side)),
        Piece::Number(group.first),
        Piece::Text(b" "),
        Piece::Number(group.last),
    ]);
}

/// Writes what a strip is of.
pub fn put_strip<K: Sink>(writer: &mut Writer<'_, K>, name: StripName)
    ensures { Writes K.told (strip_words name) writer.old writer.new }
{
    match name {
        StripName::Level(level) => {
            writer.pieces(&[Piece::Text(b" level "), Piece::Number(level)]);
        }
        StripName::Group(group) => put_group(writer, group),
    }
}

/// Whether a group is sound, as a word.
fn sound_word(is_sound: bool) -> &'static [u8]
    ensures { result.now ≡ sound_word is_sound }
{
    match is_sound {
        true => b" sound",
        false => b" unsound",
    }
}

/// Whether what was seen is trusted, as a word.
fn trust_word(is_trusted: bool) -> &'static [u8]
    ensures { result.now ≡ trust_word is_trusted }
{
    match is_trusted {
        true => b" trusted",
        false => b" untrusted",
    }
}

/// Writes what a node of a group holds besides its register.
fn put_own<K: Sink>(writer: &mut Writer<'_, K>, own: LeftSeen)
    ensures { Writes K.told (own_words own) writer.old writer.new }
{
    writer.pieces(&[
        Piece::Text(sound_word(own.is_sound)),
        Piece::Text(b" seen "),
        Piece::Number(own.seen),
        Piece::Text(trust_word(own.is_trusted)),
        Piece::Text(b" share"),
        Piece::Text(half_word(own.share)),
    ]);
}

/// Writes that, if it is there.
fn put_own_or_nothing<K: Sink>(writer: &mut Writer<'_, K>, own: Option<LeftSeen>)
    ensures { Writes K.told (own_or_nothing own) writer.old writer.new }
{
    match own {
        Some(own) => put_own(writer, own),
        None => {}
    }
}

/// Writes a register.
pub fn put_register<K: Sink>(writer: &mut Writer<'_, K>, register: &Register)
    ensures { Writes K.told (register_words register.now) writer.old writer.new }
{
    put_strip(writer, register.name);
    writer.text(b" value ");
    put_number_or_none(writer, register.value);
    writer.text(held_word(register.held));
    put_own_or_nothing(writer, register.own);
    put_heard_or_nothing(writer, &register.heard);
}

/// Writes what a line is about.
fn put_seen<K: Sink>(writer: &mut Writer<'_, K>, seen: &Seen)
    ensures { Writes K.told (seen_words seen.now) writer.old writer.new }
{
    match seen {
        Seen::Shows(shown) => put_output(writer, *shown),
        Seen::Holds(register) => put_register(writer, register),
    }
}

/// Writes a line of a trace.
pub fn put_note<K: Sink>(writer: &mut Writer<'_, K>, first: u32, note: &Note)
    ensures { Writes K.told (note_line first note.now) writer.old writer.new }
{
    writer.pieces(&[
        Piece::Text(b"at "),
        Piece::Number(u64::from(first) + u64::from(note.column)),
        Piece::Text(b" node "),
        Piece::Number(note.node),
        Piece::Text(faulty_word(note.is_faulty)),
    ]);
    put_seen(writer, &note.seen);
    writer.text(b"\n");
}
