//! Lays out a trace: below the outputs a strip for each level or group, with the kings' phases
//! above it.

use crate::trace_laid::lines_height;
use crate::trace_reading::MOST_STRIPS;
use crate::traces::{
    Basis, Heard, KingPhase, Level, Note, Register, Seen, StripName, Title, Trace,
};
use picture_parts::{ChartError, MOST_COLUMNS, line_top};
use std::alloc::{AllocFailed, Global};

/// How many strips there may be, with one that no line has.
const STRIPS: usize = MOST_STRIPS as usize + 1;

/// What is known of a strip.
#[derive(Clone, Copy)]
struct Strip {
    /// What it is of, if some line has it.
    name: Option<StripName>,
    /// How many nodes of the trace stand before its first one.
    before: u16,
    /// For how many nodes it has a line.
    members: u16,
    /// How many kings' phases stand in one column at most.
    lanes: u32,
    /// How many blocks vote.
    blocks: Option<u64>,
    /// The top of its kings' phases, in each band.
    top: u32,
    /// The top of its cells, in each band.
    cells: u32,
}

/// A phase that a node obeys.
fn reign_of(column: u32, register: &Register, heard: &Heard) -> KingPhase {
    KingPhase {
        column,
        level: register.level,
        name: register.name,
        king: heard.king,
        turn: heard.turn,
        lane: 0,
        is_common: true,
        top: 0,
    }
}

/// Adds a phase to those of its column, which stand from place `from` on, if it is not there.
/// Answers how many of its strip there are then, or 0 if it was there.
fn add_reign(
    reigns: &mut Vec<KingPhase>,
    from: usize,
    mut new: KingPhase,
) -> Result<u32, AllocFailed<KingPhase>> {
    for i in from..reigns.len() {
        let old = reigns[i];
        if old.level == new.level {
            if old.king == new.king && old.turn == new.turn {
                return Ok(0);
            }
            new.lane = new.lane.saturating_add(1);
        }
    }
    if new.lane > 0 {
        new.is_common = false;
        for i in from..reigns.len() {
            if reigns[i].level == new.level {
                reigns[i].is_common = false;
            }
        }
    }
    reigns.push(new)?;
    Ok(new.lane.saturating_add(1))
}

/// Of how many blocks a node hears votes, if it does.
fn blocks_of(heard: &Heard) -> Option<u64> {
    match &heard.basis {
        Basis::Votes(beat) => Some(beat.votes.len() as u64),
        Basis::Follows(_) => None,
    }
}

/// Takes into a strip the node at a place. The strip of a level has a line for each node of the
/// trace, that of a group one for each from its first one on to its last one.
fn take_member(strip: &mut Strip, name: StripName, place: u16, nodes: u16) {
    match name {
        StripName::Level(_) => {
            strip.before = 0;
            strip.members = nodes;
        }
        StripName::Group(_) => {
            if strip.name.is_none() {
                strip.before = place;
            }
            let members = place.saturating_sub(strip.before).saturating_add(1);
            strip.members = strip.members.max(members);
        }
    }
    strip.name = Some(name);
}

/// Takes what a node hears, if it does.
fn take_register(
    reigns: &mut Vec<KingPhase>,
    from: usize,
    strip: &mut Strip,
    note: &Note,
    register: &Register,
) -> Result<(), AllocFailed<KingPhase>> {
    if let Some(heard) = &register.heard {
        strip.blocks = blocks_of(heard);
        if !note.is_faulty {
            let reign = reign_of(note.column, register, heard);
            let lanes = add_reign(reigns, from, reign)?;
            strip.lanes = strip.lanes.max(lanes);
        }
    }
    Ok(())
}

/// Finds the kings' phases that correct nodes obey, and what is known of each strip.
fn find_reigns(trace: &mut Trace, strips: &mut [Strip]) -> Result<(), ChartError> {
    let mut from = 0;
    let mut place = 0;
    for note in trace.notes.iter() {
        if note.is_first {
            from = trace.reigns.len();
        }
        match &note.seen {
            Seen::Shows(_) => {
                place = if note.is_first { 0 } else { next_place(place) };
            }
            Seen::Holds(register) => {
                if let Some(strip) = strips.get_mut(register.level as usize) {
                    take_member(strip, register.name, place, trace.nodes);
                    take_register(&mut trace.reigns, from, strip, note, register)?;
                }
            }
        }
    }
    Ok(())
}

/// Gives each strip its place below those before it. Answers where the last one ends.
fn stack(strips: &mut [Strip], nodes: u16) -> u32 {
    let mut y = line_top(nodes);
    for strip in strips.iter_mut() {
        if let Some(name) = strip.name {
            strip.top = y.saturating_add(8);
            let lanes = strip.lanes.max(1).saturating_mul(16);
            strip.cells = strip.top.saturating_add(lanes).saturating_add(2);
            y = strip
                .cells
                .saturating_add(lines_height(name, strip.members));
        }
    }
    y
}

/// Gives each line and each phase its place.
fn place_all(trace: &mut Trace, strips: &[Strip]) {
    let mut place = 0;
    for note in trace.notes.iter_mut() {
        match &note.seen {
            Seen::Shows(_) => {
                place = if note.is_first { 0 } else { next_place(place) };
                note.top = line_top(place);
            }
            Seen::Holds(register) => {
                if let Some(strip) = strips.get(register.level as usize) {
                    let line = place.saturating_sub(strip.before);
                    note.top = strip
                        .cells
                        .saturating_add(lines_height(register.name, line));
                }
            }
        }
    }
    for reign in trace.reigns.iter_mut() {
        if let Some(strip) = strips.get(reign.level as usize) {
            reign.top = strip.top.saturating_add(reign.lane.saturating_mul(16));
        }
    }
}

/// The place of the next node.
fn next_place(place: u16) -> u16 {
    place.saturating_add(1)
}

/// Adds the words before a strip, one in each band, and its line in the caption.
fn add_words(
    trace: &mut Trace,
    level: u64,
    name: StripName,
    strip: Strip,
) -> Result<(), ChartError> {
    let mut column = 0;
    for _ in 0..trace.frame.columns {
        if column >= trace.frame.columns {
            break;
        }
        trace.titles.push(Title {
            column,
            top: strip.top,
            level,
            name,
        })?;
        column = column.saturating_add(MOST_COLUMNS);
    }
    let place = u32::try_from(trace.levels.len()).unwrap_or(0);
    trace.levels.push(Level {
        place,
        level,
        name,
        before: strip.before,
        members: strip.members,
        blocks: strip.blocks,
        top: strip.top,
        cells: strip.cells,
    })?;
    Ok(())
}

/// Lays out a trace.
pub fn lay_out(trace: &mut Trace) -> Result<(), ChartError> {
    let mut strips = [Strip {
        name: None,
        before: 0,
        members: 0,
        lanes: 0,
        blocks: None,
        top: 0,
        cells: 0,
    }; STRIPS];
    find_reigns(trace, &mut strips)?;
    trace.cells = stack(&mut strips, trace.nodes);
    trace.frame.height = trace.cells.saturating_add(24);
    place_all(trace, &strips);
    for level in 0..STRIPS {
        if let Some(name) = strips[level].name {
            add_words(trace, level as u64, name, strips[level])?;
        }
    }
    Ok(())
}
