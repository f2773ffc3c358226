//! Reads a chart from what `run` writes.

use crate::charts::{Cell, Chart, End};
use crate::hits::mark_hits;
use crate::lines::{era_line, locked_line, shown};
use edge_io::{Lines, Words};
use picture_parts::{
    ChartError, LineError, MOST_ROUNDS, Wanted, digits_of, number_after, number_behind,
};
use std::alloc::Global;

/// How many nodes a row has at most.
const MOST_NODES: u16 = 256;

/// How many eras there are at most.
const MOST_ERAS: usize = 17;

/// A bound is below this.
const MOST_BOUND: u64 = 1 << 50;

/// A chart of which the beginning was read, and what should come next.
#[derive(Drop)]
struct Draft {
    chart: Chart,
    wanted: Wanted,
}

/// Takes the bound.
fn take_bound(draft: &mut Draft, line: &[u8]) -> Result<(), LineError> {
    match number_after(line, b"bound") {
        Some(bound) => {
            if bound >= MOST_BOUND {
                return Err(LineError::Unwanted);
            }
            draft.chart.bound = bound;
            draft.wanted = Wanted::Row;
            Ok(())
        }
        None => Err(LineError::Unwanted),
    }
}

/// Takes a word of a row.
fn take_word(chart: &mut Chart, node: u16, word: &[u8]) -> Result<(), LineError> {
    match shown(word) {
        Some(shown) if node < MOST_NODES => {
            let row = chart.rows;
            chart.digits = chart.digits.max(u16::try_from(word.len()).unwrap_or(15));
            chart.cells.push(Cell {
                row,
                node,
                shown,
                is_hit: false,
            })?;
            Ok(())
        }
        _ => Err(LineError::Unwanted),
    }
}

/// Takes the words of a row, and answers how many these are.
fn take_words(chart: &mut Chart, words: Words<'_>) -> Result<u16, LineError> {
    let mut nodes: u16 = 0;
    for word in words {
        take_word(chart, nodes, word)?;
        nodes = nodes.saturating_add(1);
    }
    Ok(nodes)
}

/// Whether a configuration is the one of the next row. That of the first row is kept.
fn is_next(chart: &mut Chart, t: u32) -> bool {
    if chart.rows == 0 {
        chart.first = t;
    }
    u64::from(chart.first) + u64::from(chart.rows) == u64::from(t)
}

/// Ends a row, which has as many words as each one before.
fn end_row(chart: &mut Chart, nodes: u16) -> Result<(), LineError> {
    if nodes == 0 || (chart.rows > 0 && nodes != chart.nodes) {
        return Err(LineError::Unwanted);
    }
    chart.nodes = nodes;
    chart.rows = chart.rows.saturating_add(1);
    Ok(())
}

/// Takes a row.
fn take_row(draft: &mut Draft, line: &[u8]) -> Result<(), LineError> {
    let mut words = Words::new(line);
    match number_behind(&mut words, b"row") {
        Some(t) if is_next(&mut draft.chart, t) && t <= MOST_ROUNDS => {
            let nodes = take_words(&mut draft.chart, words)?;
            draft.wanted = Wanted::Further;
            end_row(&mut draft.chart, nodes)
        }
        _ => Err(LineError::Unwanted),
    }
}

/// Adds a line after the rows.
fn add_end(chart: &mut Chart, era: Option<u32>, locked: Option<u32>) -> Result<(), LineError> {
    let count = chart.ends.len();
    if count >= MOST_ERAS {
        return Err(LineError::Unwanted);
    }
    if let Some(last) = chart.ends.last_mut() {
        last.next = era;
    }
    let end = End {
        place: count as u32,
        era,
        locked,
        next: None,
    };
    chart.ends.push(end)?;
    Ok(())
}

/// Whether an era may begin at a configuration: the first one begins at 0, and each other one
/// later than that before it.
fn may_begin(chart: &Chart, begin: u32) -> bool {
    match chart.ends.last() {
        Some(
            End {
                era: Some(last),
                ..
            },
        ) => begin > *last,
        Some(_) => false,
        None => begin == 0,
    }
}

/// Takes the line of an era.
fn take_era(draft: &mut Draft, line: &[u8]) -> Result<(), LineError> {
    let Some((begin, locked)) = era_line(line) else {
        return Err(LineError::Unwanted);
    };
    if !may_begin(&draft.chart, begin) {
        return Err(LineError::Unwanted);
    }
    add_end(&mut draft.chart, Some(begin), locked)?;
    draft.wanted = Wanted::Era;
    Ok(())
}

/// Takes the line after the last row.
fn take_first_end(draft: &mut Draft, line: &[u8]) -> Result<(), LineError> {
    match locked_line(line) {
        Some(locked) => {
            add_end(&mut draft.chart, None, locked)?;
            draft.wanted = Wanted::Nothing;
            Ok(())
        }
        None => take_era(draft, line),
    }
}

/// Takes the next line.
fn take(draft: &mut Draft, line: &[u8]) -> Result<(), LineError> {
    match draft.wanted {
        Wanted::Bound => take_bound(draft, line),
        Wanted::Row => take_row(draft, line),
        Wanted::Further => {
            if line.starts_with(b"row ") {
                take_row(draft, line)
            } else {
                take_first_end(draft, line)
            }
        }
        Wanted::Era => take_era(draft, line),
        Wanted::Nothing | Wanted::Trace | Wanted::Node | Wanted::Tally | Wanted::Plan => {
            Err(LineError::Unwanted)
        }
    }
}

/// A chart of nothing.
fn empty(alloc: Global) -> Chart {
    Chart {
        bound: 0,
        first: 0,
        nodes: 0,
        rows: 0,
        digits: 1,
        modulus: 0,
        cells: Vec::new(alloc),
        ends: Vec::new(alloc),
    }
}

/// Takes all lines, of which the last is after the rows.
fn take_lines(draft: &mut Draft, text: &[u8]) -> Result<(), ChartError> {
    let mut next = 1;
    for (line, bytes) in Lines::new(text, 1) {
        let wanted = draft.wanted;
        match take(draft, bytes) {
            Ok(()) => next = line.saturating_add(1),
            Err(LineError::Unwanted) => return Err(ChartError::Line { line, wanted }),
            Err(LineError::NoMemory) => return Err(ChartError::NoMemory),
        }
    }
    if draft.chart.ends.is_empty() {
        let wanted = draft.wanted;
        return Err(ChartError::Line { line: next, wanted });
    }
    Ok(())
}

/// One more than the largest output, or 0 if there is none.
fn modulus_of(cells: &[Cell]) -> u64 {
    let mut modulus = 0;
    for cell in cells {
        if let Some(output) = cell.shown {
            modulus = output.saturating_add(1).max(modulus);
        }
    }
    modulus
}

/// Ends a chart whose lines are all taken: its columns are as wide as configurations need, the
/// modulus is found, and hits are marked.
fn end_chart(chart: &mut Chart) {
    let last = chart.first.saturating_add(chart.rows);
    chart.digits = chart.digits.max(digits_of(last.saturating_sub(1)));
    chart.modulus = modulus_of(&chart.cells);
    mark_hits(chart);
}

/// Reads a chart. The error is the first line that is not what should stand there, which is the
/// line after the last if one is missing; or want of memory.
pub fn read_chart(alloc: Global, text: &[u8]) -> Result<Chart, ChartError> {
    let mut draft = Draft {
        chart: empty(alloc),
        wanted: Wanted::Bound,
    };
    take_lines(&mut draft, text)?;
    end_chart(&mut draft.chart);
    Ok(draft.chart)
}
