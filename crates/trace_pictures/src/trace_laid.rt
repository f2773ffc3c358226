//! Whether the lines, the kings' phases and the levels of a trace stand where they belong.

ghost use Rattle.std.specs.Prelude.{◌≡◌, ◌≢◌, ◌*◌, ◌≤◌, ◌<◌, ◌^◌, ℕ, All, AllPairs, true, IfSome};
ghost use Rattle.std.specs.Prelude.{length};
ghost use Rattle.std.specs.Prelude.{slice_index_or};
ghost use Rattle.trace_pictures.specs.declared.traces.KingPhase.{KingPhase};
ghost use Rattle.std.specs.List.{count_by};
ghost use Rattle.std.specs.List.Sorted.{IsStrictlyIncreasing};
ghost use Rattle.trace_pictures.specs.TraceLaid.{AreApart, AreDistinct, AreLinesLaid, AreStacked};
ghost use Rattle.trace_pictures.specs.TraceLaid.{HasTurn, IsMemberOf, IsOfMember};
ghost use Rattle.trace_pictures.specs.TraceLaid.{HasTurnOf, IsAtHeight, IsInStrip, IsNoteLaid};
ghost use Rattle.trace_pictures.specs.TraceLaid.{IsStripOf};
ghost use Rattle.trace_pictures.specs.TraceLaid.{IsTitleLaid, IsTraceLaid, IsTurnLaid, IsTurnOf};
ghost use Rattle.trace_pictures.specs.TraceLaid.{line_height, shows};

use crate::trace_said::is_trace_said;
use crate::traces::{Heard, KingPhase, Level, Note, Seen, StripName, Title, Trace};
use picture_parts::{MOST_COLUMNS, line_top};

/// Whether a line says what its node shows.
fn shows(note: &Note) -> bool
    ensures { result ≡ shows note.now }
{
    match &note.seen {
        Seen::Shows(_) => true,
        Seen::Holds(_) => false,
    }
}

/// How high so many lines of a strip are: below a cell of a group stands a bar.
pub fn lines_height(name: StripName, lines: u16) -> u32
    ensures value { result ≡ line_height name * lines }
    ensures most { result ≤ 2 ^ 24 }
{
    match name {
        StripName::Level(_) => 18 * u32::from(lines),
        StripName::Group(_) => 28 * u32::from(lines),
    }
}

/// The strip of that number and name.
fn strip_of(levels: &[Level], level: u64, name: StripName) -> Option<Level>
    ensures { IfSome result (IsStripOf levels.now level name) }
{
    levels
        .iter()
        .copied()
        .find(|strip| strip.level == level && strip.name == name)
}

/// Whether a cell of a strip stands at the height of a node, of which so many stand above.
fn is_in_strip(strip: Level, place: u16, top: u32) -> bool
    ensures { result ≡ true → IsInStrip strip place top }
{
    if place < strip.before {
        return false;
    }
    let line = place - strip.before;
    let above = u64::from(lines_height(strip.name, line));
    line < strip.members && u64::from(top) == u64::from(strip.cells) + above
}

/// Whether a line stands at the height of its node, of which so many stand above.
fn is_at_height(levels: &[Level], place: u64, note: &Note) -> bool
    requires { place < 2 ^ 16 }
    ensures { result ≡ true → IsAtHeight levels.now place note.now.top note.now.seen }
{
    match &note.seen {
        Seen::Shows(_) => u64::from(note.top) == 30 + 18 * place,
        Seen::Holds(register) => match strip_of(levels, register.level, register.name) {
            Some(strip) => is_in_strip(strip, place as u16, note.top),
            None => false,
        },
    }
}

/// Whether a strip may have a line for a node: one of a group, for the nodes of the group.
fn is_member(name: StripName, node: u64) -> bool
    ensures { result ≡ true → IsMemberOf node name }
{
    match name {
        StripName::Level(_) => true,
        StripName::Group(group) => group.first <= node && node <= group.last,
    }
}

/// Whether a line stands in a strip that may have one for its node, if it is on a register.
fn is_of_member(node: u64, seen: &Seen) -> bool
    ensures { result ≡ true → IsOfMember node seen.now }
{
    match seen {
        Seen::Shows(_) => true,
        Seen::Holds(register) => is_member(register.name, node),
    }
}

/// Whether ids rise.
fn ids_rise(ids: &[u64]) -> bool
    ensures { result ≡ true → IsStrictlyIncreasing ids.now }
{
    ids.windows(2).all(|pair| pair[0] < pair[1])
}

/// Whether the id at a place is that of a node.
fn has_id(ids: &[u64], place: u64, node: u64) -> bool
    ensures { result ≡ true → (d : ℕ) → slice_index_or ids.now place d ≡ node }
{
    let place = place as usize;
    place < ids.len() && ids[place] == node
}

/// Whether a line is on the node that is due, and stands in its column and line, if so many outputs
/// were shown before that of its node.
fn is_note_laid(levels: &[Level], nodes: u16, ids: &[u64], before: u64, note: &Note) -> bool
    requires { 1 ≤ nodes }
    ensures { result ≡ true → IsNoteLaid levels.now nodes ids.now before note.now }
{
    let place = before % u64::from(nodes);
    u64::from(note.column) == before / u64::from(nodes)
        && has_id(ids, place, note.node)
        && note.is_first == (shows(note) && place == 0)
        && is_of_member(note.node, &note.seen)
        && is_at_height(levels, place, note)
}

/// Whether all lines do. Answers how many outputs they show, if so.
fn outputs_laid(levels: &[Level], nodes: u16, ids: &[u64], notes: &[Note]) -> Option<u64>
    requires { 1 ≤ nodes }
    ensures shown { IfSome result (λ shown. shown ≡ count_by shows notes.now) }
    ensures laid { IfSome result (λ _. AreLinesLaid levels.now nodes ids.now notes.now) }
{
    let mut shown: u64 = 0;
    for k in 0..notes.len() {
        let note = &notes[k];
        if shows(note) {
            shown += 1;
        }
        if shown == 0 || !is_note_laid(levels, nodes, ids, shown - 1, note) {
            return None;
        }
    }
    Some(shown)
}

/// The place of the first phase of a column, or of a later one.
fn first_turn(reigns: &[KingPhase], column: u32) -> usize {
    let mut low = 0;
    let mut high = reigns.len();
    for _ in 0..32 {
        if low >= high || high > reigns.len() {
            break;
        }
        let middle = low + (high - low) / 2;
        if reigns[middle].column < column {
            low = middle + 1;
        } else {
            high = middle;
        }
    }
    low
}

/// Whether a phase is the one that is heard.
fn is_turn_of(reign: KingPhase, column: u32, level: u64, heard: &Heard) -> bool
    ensures { result ≡ true → IsTurnOf column level heard.now reign }
{
    reign.column == column
        && reign.level == level
        && reign.king == heard.king
        && reign.turn == heard.turn
}

/// Whether a phase that is heard is drawn.
fn has_turn_of(reigns: &[KingPhase], column: u32, level: u64, heard: &Heard) -> bool
    ensures { result ≡ true → HasTurnOf reigns.now column level heard.now }
{
    for k in first_turn(reigns, column)..reigns.len() {
        if is_turn_of(reigns[k], column, level, heard) {
            return true;
        }
        if reigns[k].column > column {
            return false;
        }
    }
    false
}

/// Whether the phase that a line says is drawn, if a correct node hears it.
fn has_turn(reigns: &[KingPhase], note: &Note) -> bool
    ensures { result ≡ true → HasTurn reigns.now note.now }
{
    if note.is_faulty {
        return true;
    }
    match &note.seen {
        Seen::Shows(_) => true,
        Seen::Holds(register) => match &register.heard {
            Some(heard) => has_turn_of(reigns, note.column, register.level, heard),
            None => true,
        },
    }
}

/// Whether all phases that correct nodes hear are drawn.
fn have_turns(reigns: &[KingPhase], notes: &[Note]) -> bool
    ensures { result ≡ true → All (HasTurn reigns.now) notes.now }
{
    notes.iter().all(|note| has_turn(reigns, note))
}

/// Whether a phase stands above the cells of its level.
fn is_turn_laid(levels: &[Level], reign: KingPhase) -> bool
    ensures { result ≡ true → IsTurnLaid levels.now reign }
{
    match strip_of(levels, reign.level, reign.name) {
        Some(strip) => {
            strip.top <= reign.top && u64::from(reign.top) + 16 <= u64::from(strip.cells)
        }
        None => false,
    }
}

/// Whether all phases do.
fn are_turns_laid(levels: &[Level], reigns: &[KingPhase]) -> bool
    ensures { result ≡ true → All (IsTurnLaid levels.now) reigns.now }
{
    reigns.iter().all(|reign| is_turn_laid(levels, *reign))
}

/// Whether a phase stands above a later one, if both are of one column and level.
fn is_above(turn: KingPhase, later: KingPhase) -> bool
    ensures { result ≡ true → AreApart turn later }
{
    turn.column != later.column
        || turn.level != later.level
        || u64::from(turn.top) + 16 <= u64::from(later.top)
}

/// Whether the phases of these places do.
fn are_above(reigns: &[KingPhase], from: usize, to: usize, later: KingPhase) -> bool
    requires { to ≤ length reigns.now }
    ensures { result ≡ true → (i : ℕ) (d : KingPhase) → from ≤ i → i < to
        → AreApart (slice_index_or reigns.now i d) later }
{
    for i in from..to {
        if !is_above(reigns[i], later) {
            return false;
        }
    }
    true
}

/// Whether no phase covers another one. Columns rise.
fn are_apart(reigns: &[KingPhase]) -> bool
    ensures { result ≡ true → AllPairs AreApart reigns.now }
{
    let mut column = 0;
    let mut from = 0;
    for k in 0..reigns.len() {
        let reign = reigns[k];
        if reign.column < column {
            return false;
        }
        if reign.column > column {
            column = reign.column;
            from = k;
        }
        if !are_above(reigns, from, k, reign) {
            return false;
        }
    }
    true
}

/// Whether a word stands before the strip of its level, at the beginning of a band.
fn is_title_laid(levels: &[Level], title: Title) -> bool
    ensures { result ≡ true → IsTitleLaid levels.now title }
{
    match strip_of(levels, title.level, title.name) {
        Some(strip) => title.top == strip.top && title.column % MOST_COLUMNS == 0,
        None => false,
    }
}

/// Whether all words do.
fn are_titles_laid(levels: &[Level], titles: &[Title]) -> bool
    ensures { result ≡ true → All (IsTitleLaid levels.now) titles.now }
{
    titles.iter().all(|title| is_title_laid(levels, *title))
}

/// Whether no strip has a name.
fn lack_name(levels: &[Level], name: StripName) -> bool
    ensures { result ≡ true → All (λ strip. strip.name ≢ name) levels.now }
{
    levels.iter().all(|strip| strip.name != name)
}

/// Whether no two strips have one name.
fn are_distinct(levels: &[Level]) -> bool
    ensures { result ≡ true → AreDistinct levels.now }
{
    match levels {
        [] => true,
        [strip, strips @ ..] => lack_name(strips, strip.name) && are_distinct(strips),
    }
}

/// Whether strips stand one below the other, from one height to another.
fn are_stacked(below: u64, from: u64, levels: &[Level], end: u32) -> bool
    ensures { result ≡ true → AreStacked below from levels.now end }
{
    match levels {
        [] => from <= u64::from(end),
        [strip, strips @ ..] => {
            below < strip.level
                && from <= u64::from(strip.top)
                && u64::from(strip.top) + 16 <= u64::from(strip.cells)
                && are_stacked(
                    strip.level,
                    u64::from(strip.cells) + u64::from(lines_height(strip.name, strip.members)),
                    strips,
                    end,
                )
        }
    }
}

/// Whether the lines, the phases and the levels of a trace stand where they belong.
pub fn is_trace_laid(trace: &Trace) -> bool
    ensures { result ≡ true → IsTraceLaid trace.now }
{
    if trace.frame.columns == 0 || trace.nodes == 0 || trace.cells > trace.frame.height {
        return false;
    }
    if trace.ids.len() != usize::from(trace.nodes) || !ids_rise(&trace.ids) {
        return false;
    }
    let laid = outputs_laid(&trace.levels, trace.nodes, &trace.ids, &trace.notes);
    let Some(shown) = laid else {
        return false;
    };
    let whole = u64::from(trace.frame.columns) * u64::from(trace.nodes);
    if shown != whole || !have_turns(&trace.reigns, &trace.notes) {
        return false;
    }
    if !are_turns_laid(&trace.levels, &trace.reigns) {
        return false;
    }
    if !are_titles_laid(&trace.levels, &trace.titles) {
        return false;
    }
    if !are_apart(&trace.reigns) {
        return false;
    }
    if !is_trace_said(trace) {
        return false;
    }
    if !are_distinct(&trace.levels) {
        return false;
    }
    let from = u64::from(line_top(trace.nodes));
    are_stacked(0, from, &trace.levels, trace.cells)
}
