//! Reads a trace from what `trace` writes.

use crate::trace_lines::{TraceFault, TraceLine, trace_line};
use crate::traces::{Register, Seen, StripName, Trace};
use edge_io::{Lines, first_line};
use picture_parts::{ChartError, Frame, MOST_ROUNDS, Wanted, digits_of};
use std::alloc::Global;

/// How many nodes a trace has at most.
pub const MOST_NODES: usize = 256;

/// The highest number of a strip, with the lowest one as 1.
pub const MOST_STRIPS: u64 = 256;

/// A trace of which the beginning was read.
#[derive(Drop)]
struct Draft {
    trace: Trace,
    /// The groups, in the order in which they came: their places, from 1 on, number the strips.
    groups: Vec<StripName>,
    /// Which of its nodes the last line is about.
    place: usize,
    /// The strip of that line, or 0 if it is about the node's state.
    level: u64,
    /// How many digits the longest number to be drawn has.
    digits: u16,
}

/// How many digits a number has.
pub fn length_of(n: u64) -> u16 {
    let mut digits: u16 = 1;
    let mut rest = n / 10;
    for _ in 0..20 {
        if rest == 0 {
            return digits;
        }
        rest /= 10;
        digits = digits.saturating_add(1);
    }
    digits
}

/// Whether a text begins with a line of a trace.
pub fn is_trace(alloc: Global, text: &[u8]) -> Result<bool, ChartError> {
    if text.is_empty() {
        return Ok(false);
    }
    let (line, _) = first_line(text);
    match trace_line(alloc, line) {
        Ok(_) => Ok(true),
        Err(TraceFault::Unwanted) => Ok(false),
        Err(TraceFault::NoMemory) => Err(ChartError::NoMemory),
    }
}

/// Takes the next node of the first configuration: nodes rise.
fn add_node(draft: &mut Draft, node: u64) -> Result<(), TraceFault> {
    if let Some(last) = draft.trace.ids.last() {
        if node <= *last {
            return Err(TraceFault::Unwanted);
        }
    }
    if draft.trace.ids.len() >= MOST_NODES {
        return Err(TraceFault::Unwanted);
    }
    draft.trace.ids.push(node)?;
    draft.place = draft.trace.ids.len().saturating_sub(1);
    Ok(())
}

/// Takes the node of a later configuration: the same nodes as in the first one.
fn take_node(draft: &mut Draft, place: usize, node: u64) -> Result<(), TraceFault> {
    if draft.trace.ids.get(place) != Some(&node) {
        return Err(TraceFault::Unwanted);
    }
    draft.place = place;
    Ok(())
}

/// Takes the configuration and the node of a line on a node's state.
fn take_state(draft: &mut Draft, t: u32, node: u64) -> Result<(), TraceFault> {
    let frame = draft.trace.frame;
    draft.level = 0;
    if frame.columns == 0 {
        draft.trace.frame.first = t;
        draft.trace.frame.columns = 1;
        return add_node(draft, node);
    }
    let next = u64::from(frame.first).saturating_add(u64::from(frame.columns));
    if u64::from(t) == next {
        if draft.place.saturating_add(1) != draft.trace.ids.len() {
            return Err(TraceFault::Unwanted);
        }
        draft.trace.frame.columns = frame.columns.saturating_add(1);
        return take_node(draft, 0, node);
    }
    if u64::from(t).saturating_add(1) != next {
        return Err(TraceFault::Unwanted);
    }
    if frame.columns == 1 {
        return add_node(draft, node);
    }
    let place = draft.place.saturating_add(1);
    take_node(draft, place, node)
}

/// The number of a strip: that of a level is the level's, and groups are numbered as they come.
fn number_of(groups: &mut Vec<StripName>, name: StripName) -> Result<u64, TraceFault> {
    if let StripName::Level(level) = name {
        return Ok(level);
    }
    for i in 0..groups.len() {
        if groups[i] == name {
            return Ok((i as u64).saturating_add(1));
        }
    }
    groups.push(name)?;
    Ok(groups.len() as u64)
}

/// Takes the strip of a line on a register: it is of the node whose state was said, and strips
/// rise.
fn take_strip(draft: &mut Draft, line: &TraceLine, level: u64) -> Result<(), TraceFault> {
    let Some(last) = draft.trace.notes.last() else {
        return Err(TraceFault::Unwanted);
    };
    let frame = draft.trace.frame;
    let behind = u64::from(frame.first).saturating_add(u64::from(frame.columns));
    if u64::from(line.t).saturating_add(1) != behind
        || last.node != line.node
        || last.is_faulty != line.is_faulty
        || level <= draft.level
        || level > MOST_STRIPS
    {
        return Err(TraceFault::Unwanted);
    }
    draft.level = level;
    Ok(())
}

/// The longest number that is drawn of a register.
fn longest_of(register: &Register) -> u16 {
    let king = match &register.heard {
        Some(heard) => heard.king,
        None => 0,
    };
    length_of(king).max(length_of(register.value.unwrap_or(0)))
}

/// Takes what a line says, and gives its strip a number.
fn take(draft: &mut Draft, line: &mut TraceLine) -> Result<(), TraceFault> {
    if line.t > MOST_ROUNDS {
        return Err(TraceFault::Unwanted);
    }
    if let Seen::Holds(register) = &mut line.seen {
        register.level = number_of(&mut draft.groups, register.name)?;
    }
    let digits = match &line.seen {
        Seen::Shows(shown) => {
            take_state(draft, line.t, line.node)?;
            let modulus = shown.output.saturating_add(1);
            draft.trace.frame.modulus = draft.trace.frame.modulus.max(modulus);
            length_of(shown.output)
        }
        Seen::Holds(register) => {
            take_strip(draft, line, register.level)?;
            longest_of(register)
        }
    };
    draft.digits = draft.digits.max(digits);
    Ok(())
}

/// Adds a line that was taken.
fn add_note(draft: &mut Draft, line: TraceLine) -> Result<(), TraceFault> {
    let is_first = draft.place == 0 && draft.level == 0;
    let column = draft.trace.frame.columns.saturating_sub(1);
    draft.trace.notes.push(line.into_note(column, is_first))?;
    Ok(())
}

/// A trace of nothing.
fn empty(alloc: Global) -> Trace {
    Trace {
        frame: Frame {
            first: 0,
            columns: 0,
            digits: 1,
            height: 0,
            modulus: 0,
        },
        nodes: 0,
        ids: Vec::new(alloc),
        cells: 0,
        notes: Vec::new(alloc),
        reigns: Vec::new(alloc),
        titles: Vec::new(alloc),
        levels: Vec::new(alloc),
        eras: Vec::new(alloc),
    }
}

/// Ends the reading: the last configuration has all nodes.
fn finished(draft: Draft, line: u64) -> Result<Trace, ChartError> {
    if draft.place.saturating_add(1) != draft.trace.ids.len() {
        return Err(ChartError::Line {
            line,
            wanted: Wanted::Node,
        });
    }
    let mut trace = draft.trace;
    let last = trace.frame.first.saturating_add(trace.frame.columns);
    trace.frame.digits = draft.digits.max(digits_of(last.saturating_sub(1)));
    trace.nodes = u16::try_from(trace.ids.len()).unwrap_or(256);
    Ok(trace)
}

/// Reads a line and takes it.
fn take_bytes(alloc: Global, draft: &mut Draft, bytes: &[u8]) -> Result<(), TraceFault> {
    let mut line = trace_line(alloc, bytes)?;
    take(draft, &mut line)?;
    add_note(draft, line)
}

/// Reads a trace. The error is the first line that is not what should stand there, which is the
/// line after the last if one is missing; or want of memory.
pub fn read_trace(alloc: Global, text: &[u8]) -> Result<Trace, ChartError> {
    let mut draft = Draft {
        trace: empty(alloc),
        groups: Vec::new(alloc),
        place: 0,
        level: 0,
        digits: 1,
    };
    let mut next = 1;
    for (line, bytes) in Lines::new(text, 1) {
        match take_bytes(alloc, &mut draft, bytes) {
            Ok(()) => next = line.saturating_add(1),
            Err(TraceFault::Unwanted) => {
                return Err(ChartError::Line {
                    line,
                    wanted: Wanted::Trace,
                });
            }
            Err(TraceFault::NoMemory) => return Err(ChartError::NoMemory),
        }
    }
    finished(draft, next)
}
