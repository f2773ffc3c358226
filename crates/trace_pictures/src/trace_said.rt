//! Whether the lines of a trace say what is drawn of it: which outputs stand for no value, which
//! phases are heard, and what is known of a level.

ghost use Rattle.std.specs.Prelude.{◌≡◌, length, map, All, true, None};
ghost use Rattle.std.specs.List.{range_with_len};
ghost use Rattle.picture_parts.specs.Moduli.{HasOutput, IsBelow, IsModulusOf};
ghost use Rattle.trace_pictures.specs.TraceSaid.{HasBlocks, HasLine, HasVotes, IsLevelSaid};
ghost use Rattle.trace_pictures.specs.TraceSaid.{IsTraceSaid, KnowValues, is_lost_before, is_of};
ghost use Rattle.trace_pictures.specs.TraceSaid.{output_said, value_above, value_before};
ghost use Rattle.trace_pictures.specs.TraceSaid.{votes_at, votes_by};

use crate::traces::{Basis, Level, Note, Seen, StripName, Trace};
use crate::turns_said::{are_turns_said, columns_rise};
use picture_parts::is_below;

/// What a line shows.
fn output_said(note: &Note) -> Option<u64>
    ensures { result ≡ output_said note.now }
{
    match &note.seen {
        Seen::Shows(shown) => Some(shown.output),
        Seen::Holds(_) => None,
    }
}

/// Whether all outputs are below a number.
fn are_below(modulus: u64, notes: &[Note]) -> bool
    ensures { result ≡ true → All (λ note. IsBelow modulus (output_said note)) notes.now }
{
    notes
        .iter()
        .all(|note| is_below(modulus, output_said(note)))
}

/// Whether an output is shown.
fn has_output(notes: &[Note], wanted: u64) -> bool
    ensures { result ≡ true → HasOutput output_said notes.now wanted }
{
    notes.iter().any(|note| output_said(note) == Some(wanted))
}

/// Whether a number is the least one above all outputs.
fn is_modulus_of(notes: &[Note], modulus: u64) -> bool
    ensures { result ≡ true → IsModulusOf output_said notes.now modulus }
{
    are_below(modulus, notes) && (modulus == 0 || has_output(notes, modulus - 1))
}

/// Which of these a node shows: the value of a register, or that of those after it, if there are
/// any. Levels come before those above them, and groups after those in which they are.
fn value_above(
    name: StripName,
    value: Option<u64>,
    later: Option<Option<u64>>,
) -> Option<Option<u64>>
    ensures { result ≡ value_above name value later }
{
    match (name, later) {
        (StripName::Level(_), Some(later)) => Some(later),
        (StripName::Level(_), None) => Some(value),
        (StripName::Group(_), _) => Some(value),
    }
}

/// What a node shows by a line and by those after it, up to the next output.
pub fn value_before(seen: &Seen, later: Option<Option<u64>>) -> Option<Option<u64>>
    ensures { result ≡ value_before seen.now later }
{
    match seen {
        Seen::Shows(_) => None,
        Seen::Holds(register) => value_above(register.name, register.value, later),
    }
}

/// Whether a line shows an output that stands for no value.
pub fn is_lost_before(seen: &Seen, later: Option<Option<u64>>) -> bool
    ensures { result ≡ is_lost_before seen.now later }
{
    match seen {
        Seen::Shows(_) => match later {
            Some(None) => true,
            Some(Some(_)) => false,
            None => false,
        },
        Seen::Holds(_) => false,
    }
}

/// Whether each output knows if it stands for no value. Lines are gone through from the last one
/// on.
fn know_values(notes: &[Note]) -> bool
    ensures { result ≡ true → KnowValues notes.now }
{
    let mut later = None;
    for i in 0..notes.len() {
        let note = &notes[notes.len() - 1 - i];
        if note.is_lost != is_lost_before(&note.seen, later) {
            return false;
        }
        later = value_before(&note.seen, later);
    }
    true
}

/// Of how many blocks a node hears votes, if it has its instruction by these.
fn votes_by(basis: &Basis) -> Option<usize>
    ensures { result ≡ votes_by basis.now }
{
    match basis {
        Basis::Votes(beat) => Some(beat.votes.len()),
        Basis::Follows(_) => None,
    }
}

/// Of how many blocks a line hears votes at a level, if it does.
fn votes_at(level: u64, note: &Note) -> Option<usize>
    ensures { result ≡ votes_at level note.now }
{
    match &note.seen {
        Seen::Shows(_) => None,
        Seen::Holds(register) => {
            if register.level != level {
                return None;
            }
            match &register.heard {
                None => None,
                Some(heard) => votes_by(&heard.basis),
            }
        }
    }
}

/// Whether a line is on a register of a level.
fn is_of(level: u64, seen: &Seen) -> bool
    ensures { result ≡ is_of level seen.now }
{
    match seen {
        Seen::Shows(_) => false,
        Seen::Holds(register) => register.level == level,
    }
}

/// Whether some line is on a register of a level.
fn has_line(notes: &[Note], level: u64) -> bool
    ensures { result ≡ true → HasLine notes.now level }
{
    notes.iter().any(|note| is_of(level, &note.seen))
}

/// Whether some line has votes of so many blocks.
fn has_votes(notes: &[Note], level: u64, blocks: u64) -> bool
    ensures { result ≡ true → HasVotes notes.now level blocks }
{
    for k in 0..notes.len() {
        if let Some(votes) = votes_at(level, &notes[k]) {
            if votes as u64 == blocks {
                return true;
            }
        }
    }
    false
}

/// Whether no line has votes.
fn lack_votes(notes: &[Note], level: u64) -> bool
    ensures { result ≡ true → All (λ note. votes_at level note ≡ None) notes.now }
{
    notes.iter().all(|note| votes_at(level, note).is_none())
}

/// Whether the blocks of a caption are those of a line.
fn has_blocks(notes: &[Note], level: u64, blocks: Option<u64>) -> bool
    ensures { result ≡ true → HasBlocks notes.now level blocks }
{
    match blocks {
        Some(blocks) => has_votes(notes, level, blocks),
        None => lack_votes(notes, level),
    }
}

/// Whether captions are those of levels that the trace has.
fn are_levels_said(notes: &[Note], levels: &[Level]) -> bool
    ensures said { result ≡ true → All (IsLevelSaid notes.now) levels.now }
    ensures places { result ≡ true
        → map (λ level. level.place) levels.now ≡ range_with_len 0 (length levels.now) }
{
    for k in 0..levels.len() {
        let level = levels[k];
        if level.place as usize != k
            || !has_line(notes, level.level)
            || !has_blocks(notes, level.level, level.blocks)
        {
            return false;
        }
    }
    true
}

/// Whether the lines of a trace say what is drawn of it.
pub fn is_trace_said(trace: &Trace) -> bool
    ensures { result ≡ true → IsTraceSaid trace.now }
{
    is_modulus_of(&trace.notes, trace.frame.modulus)
        && know_values(&trace.notes)
        && columns_rise(&trace.notes)
        && are_turns_said(&trace.notes, &trace.reigns)
        && are_levels_said(&trace.notes, &trace.levels)
}
