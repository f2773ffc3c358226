//! Whether the phases that are drawn are heard, and in which frames.

ghost use Rattle.std.specs.Prelude.{◌≡◌, All, true};
ghost use Rattle.trace_pictures.specs.TraceSaid.{ColumnsRise, HasHearer, IsBefore, IsFramed};
ghost use Rattle.trace_pictures.specs.TraceSaid.{IsHeardByAll, IsTurnSaid, heard_as, hears};
ghost use Rattle.trace_pictures.specs.TraceSaid.{is_other, is_same_turn, seen_as};

use crate::traces::{Heard, KingPhase, Note, Seen, Turn};

/// Whether no line stands in a column before that of the line before it.
pub fn columns_rise(notes: &[Note]) -> bool
    ensures { result ≡ true → ColumnsRise notes.now }
{
    let mut last = 0;
    for k in 0..notes.len() {
        let note = &notes[k];
        if note.column < last {
            return false;
        }
        last = note.column;
    }
    true
}

/// Whether two phases have come to the same instruction.
pub fn is_same_turn(turn: Turn, other: Turn) -> bool
    ensures { result ≡ is_same_turn turn other }
{
    match (turn, other) {
        (Turn::Keep, Turn::Keep) => true,
        (Turn::Mark, Turn::Mark) => true,
        (Turn::King, Turn::King) => true,
        _ => false,
    }
}

/// Whether what is heard is this phase, if anything is.
fn heard_as(reign: KingPhase, heard: &Option<Heard>) -> Option<bool>
    ensures { result ≡ heard_as reign heard.now }
{
    match heard {
        None => None,
        Some(heard) => Some(heard.king == reign.king && is_same_turn(heard.turn, reign.turn)),
    }
}

/// The same if a line is on a register of the phase's level.
fn seen_as(reign: KingPhase, seen: &Seen) -> Option<bool>
    ensures { result ≡ seen_as reign seen.now }
{
    match seen {
        Seen::Shows(_) => None,
        Seen::Holds(register) => {
            if register.level == reign.level {
                heard_as(reign, &register.heard)
            } else {
                None
            }
        }
    }
}

/// If a line is on what a correct node hears in a phase's column at its level: whether that is the
/// phase.
fn hears(reign: KingPhase, note: &Note) -> Option<bool>
    ensures { result ≡ hears reign note.now }
{
    if note.column == reign.column && !note.is_faulty {
        seen_as(reign, &note.seen)
    } else {
        None
    }
}

/// The place of the first line of a column, or of a later one.
fn first_line(notes: &[Note], column: u32) -> usize {
    let mut low = 0;
    let mut high = notes.len();
    for _ in 0..64 {
        if low >= high || high > notes.len() {
            break;
        }
        let middle = low + (high - low) / 2;
        if notes[middle].column < column {
            low = middle + 1;
        } else {
            high = middle;
        }
    }
    low
}

/// Whether some line says so of a phase.
fn has_hearer(reign: KingPhase, notes: &[Note], same: bool) -> bool
    ensures { result ≡ true → HasHearer reign notes.now same }
{
    for k in first_line(notes, reign.column)..notes.len() {
        if let Some(heard) = hears(reign, &notes[k]) {
            if heard == same {
                return true;
            }
        }
        if notes[k].column > reign.column {
            return false;
        }
    }
    false
}

/// Whether the lines before a place stand in earlier columns, if columns rise.
fn starts_at(column: u32, from: usize, notes: &[Note]) -> bool
    requires { ColumnsRise notes.now }
    ensures { result ≡ true → IsBefore column from notes.now }
{
    if from == 0 {
        return true;
    }
    if from > notes.len() {
        return false;
    }
    notes[from - 1].column < column
}

/// Whether a line says that another phase is heard.
fn hears_other(reign: KingPhase, note: &Note) -> bool
    ensures { result ≡ is_other (hears reign note.now) }
{
    match hears(reign, note) {
        Some(true) => false,
        Some(false) => true,
        None => false,
    }
}

/// Whether no line says that another phase is heard, if columns rise, and lines before a place
/// stand in earlier columns.
fn is_heard_from(reign: KingPhase, notes: &[Note], from: usize) -> bool
    requires rise { ColumnsRise notes.now }
    requires before { IsBefore reign.column from notes.now }
    ensures { result ≡ true → IsHeardByAll reign notes.now }
{
    for k in from..notes.len() {
        let note = &notes[k];
        if note.column > reign.column {
            return true;
        }
        if hears_other(reign, note) {
            return false;
        }
    }
    true
}

/// Whether no line says that another phase is heard, if columns rise.
fn is_heard_by_all(reign: KingPhase, notes: &[Note]) -> bool
    requires { ColumnsRise notes.now }
    ensures { result ≡ true → IsHeardByAll reign notes.now }
{
    let from = first_line(notes, reign.column);
    starts_at(reign.column, from, notes) && is_heard_from(reign, notes, from)
}

/// If columns rise: whether a phase's frame is whole if all hear it, and else broken.
fn is_framed(reign: KingPhase, notes: &[Note], is_common: bool) -> bool
    requires { ColumnsRise notes.now }
    ensures { result ≡ true → IsFramed reign notes.now is_common }
{
    match is_common {
        true => is_heard_by_all(reign, notes),
        false => has_hearer(reign, notes, false),
    }
}

/// Whether a phase is heard by some correct node, and has its frame, if columns rise.
fn is_turn_said(notes: &[Note], reign: KingPhase) -> bool
    requires { ColumnsRise notes.now }
    ensures { result ≡ true → IsTurnSaid notes.now reign }
{
    has_hearer(reign, notes, true) && is_framed(reign, notes, reign.is_common)
}

/// Whether all phases are, if columns rise.
pub fn are_turns_said(notes: &[Note], reigns: &[KingPhase]) -> bool
    requires { ColumnsRise notes.now }
    ensures { result ≡ true → All (IsTurnSaid notes.now) reigns.now }
{
    reigns.iter().all(|reign| is_turn_said(notes, *reign))
}
