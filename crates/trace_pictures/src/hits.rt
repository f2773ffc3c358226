//! Finds the nodes that the start of an era put into another state, as far as numbers show it.

use crate::trace_said::{is_lost_before, value_before};
use crate::traces::{Note, Seen, StripName, Trace};
use picture_parts::{ChartError, breaks};
use std::alloc::{AllocFailed, Global};

/// The number that a line of a trace says.
fn number_in(note: &Note) -> Option<u64> {
    match &note.seen {
        Seen::Shows(shown) => shown.number,
        Seen::Holds(_) => None,
    }
}

/// What is known of a node: up to which number it counts at least, and what it was in the
/// configuration before.
#[derive(Clone, Copy)]
struct Past {
    most: u64,
    number: Option<u64>,
    is_faulty: bool,
    is_known: bool,
}

/// The place of the node of the next line, if `place` is that of the line before.
fn place_of(note: &Note, place: usize) -> usize {
    match note.seen {
        Seen::Shows(_) if note.is_first => 0,
        Seen::Shows(_) => place.saturating_add(1),
        Seen::Holds(_) => place,
    }
}

/// Whether a line is on a group: then nodes count by different numbers.
fn is_of_group(note: &Note) -> bool {
    match &note.seen {
        Seen::Shows(_) => false,
        Seen::Holds(register) => matches!(register.name, StripName::Group(_)),
    }
}

/// Nothing is known yet of any node, but for its largest number; if all nodes count by one number,
/// that of all.
fn pasts_of(alloc: Global, trace: &Trace) -> Result<Vec<Past>, ChartError> {
    let mut pasts = Vec::new(alloc);
    for _ in 0..trace.ids.len() {
        pasts.push(Past {
            most: 0,
            number: None,
            is_faulty: false,
            is_known: false,
        })?;
    }
    let mut place = 0;
    let mut most = 0;
    for note in trace.notes.iter() {
        place = place_of(note, place);
        let number = number_in(note).unwrap_or(0);
        most = number.max(most);
        if let Some(past) = pasts.get_mut(place) {
            past.most = past.most.max(number);
        }
    }
    if !trace.notes.iter().any(is_of_group) {
        for past in pasts.iter_mut() {
            past.most = most;
        }
    }
    Ok(pasts)
}

/// Compares a line on a node's state with what the node was before, and marks a hit. Answers
/// whether an era must begin here: a node was hit, or has become faulty or correct.
fn compare(note: &mut Note, past: &mut Past) -> bool {
    let number = number_in(note);
    let is_known = past.is_known;
    note.is_hit = is_known && breaks(past.most, past.number, number);
    let begins = note.is_hit || (is_known && past.is_faulty != note.is_faulty);
    past.number = number;
    past.is_faulty = note.is_faulty;
    past.is_known = true;
    begins
}

/// Adds a column where an era must begin, once.
fn add_era(eras: &mut Vec<u32>, column: u32) -> Result<(), AllocFailed<u32>> {
    if eras.last() == Some(&column) {
        return Ok(());
    }
    eras.push(column)
}

/// Does the same for all lines, and finds the columns where an era must begin.
fn mark_notes(trace: &mut Trace, pasts: &mut Vec<Past>) -> Result<(), ChartError> {
    let mut place = 0;
    for note in trace.notes.iter_mut() {
        place = place_of(note, place);
        if matches!(note.seen, Seen::Shows(_)) {
            if let Some(past) = pasts.get_mut(place) {
                if compare(note, past) {
                    add_era(&mut trace.eras, note.column)?;
                }
            }
        }
    }
    Ok(())
}

/// Marks the outputs that stand for no value, as the lines after them say.
fn mark_lost(notes: &mut [Note]) {
    let mut later = None;
    for note in notes.iter_mut().rev() {
        note.is_lost = is_lost_before(&note.seen, later);
        later = value_before(&note.seen, later);
    }
}

/// Marks the nodes that the starts of eras hit, as far as their numbers show it, and finds where an
/// era must begin. Marks the outputs that stand for no value.
pub fn mark_trace(alloc: Global, trace: &mut Trace) -> Result<(), ChartError> {
    let mut pasts = pasts_of(alloc, trace)?;
    mark_lost(&mut trace.notes);
    mark_notes(trace, &mut pasts)
}
