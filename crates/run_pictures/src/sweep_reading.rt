//! Reads a sweep from what `sweep` writes, and lays it out.

use crate::sweep_charts::{Sweep, Tally, Tick};
use crate::sweep_laid::{band_behind, comes_behind, total_before, upto_before};
use edge_io::{Lines, Words, number};
use picture_parts::{
    ChartError, LineError, MOST_ROUNDS, Wanted, next_is, number_after, number_behind, small_or_none,
};
use std::alloc::Global;

/// How many bars stand side by side at most.
const MOST_BARS: u64 = 40;

/// How many configurations a bar may stand for.
const SPANS: [u32; 14] = [
    1, 2, 5, 10, 20, 50, 100, 200, 500, 1000, 2000, 5000, 10000, 20000,
];

/// What a line says.
fn tally_line(line: &[u8]) -> Option<Tally> {
    let mut words = Words::new(line);
    let era = number_behind(&mut words, b"era")?;
    if !next_is(&mut words, b"locked") {
        return None;
    }
    let locked = small_or_none(words.next()?)?;
    let runs = number_behind(&mut words, b"runs")?;
    if !next_is(&mut words, b"seed") {
        return None;
    }
    let seed = number(words.next()?)?;
    if words.next().is_some() {
        return None;
    }
    Some(Tally {
        era,
        locked,
        runs,
        seed,
        band: 0,
        column: 0,
        total: 0,
        upto: 0,
        foot: 0,
        head: 0,
        is_worst: true,
    })
}

/// Whether a text begins with the lines of a sweep: a bound, and what a line says after it.
pub fn is_sweep(text: &[u8]) -> bool {
    let mut lines = Lines::new(text, 1);
    match (lines.next(), lines.next()) {
        (Some((_, first)), Some((_, second))) => {
            number_after(first, b"bound").is_some() && tally_line(second).is_some()
        }
        _ => false,
    }
}

/// Takes the bound.
fn take_bound(lines: &mut Lines<'_>) -> Result<u64, ChartError> {
    if let Some((_, line)) = lines.next()
        && let Some(bound) = number_after(line, b"bound")
    {
        return Ok(bound);
    }
    Err(ChartError::Line {
        line: 1,
        wanted: Wanted::Bound,
    })
}

/// Whether a line's numbers are such as a script may have.
fn is_sound(tally: Tally) -> bool {
    let locked = tally.locked.unwrap_or(tally.era);
    tally.runs > 0 && tally.era <= locked && locked <= MOST_ROUNDS
}

/// Takes a line, after those before it.
fn take(tallies: &mut Vec<Tally>, line: &[u8]) -> Result<(), LineError> {
    let Some(mut tally) = tally_line(line) else {
        return Err(LineError::Unwanted);
    };
    let before = tallies.last().copied();
    if !is_sound(tally) || !comes_behind(before, tally) {
        return Err(LineError::Unwanted);
    }
    let Some(total) = total_before(before, tally).checked_add(tally.runs) else {
        return Err(LineError::Unwanted);
    };
    tally.total = total;
    tally.band = u32::try_from(band_behind(before, tally)).unwrap_or(0);
    if let Some(last) = tallies.last_mut() {
        last.is_worst = last.era != tally.era || tally.locked.is_none();
    }
    tallies.push(tally)?;
    Ok(())
}

/// Takes all lines after the bound.
fn take_lines(alloc: Global, lines: Lines<'_>) -> Result<Vec<Tally>, ChartError> {
    let mut tallies = Vec::new(alloc);
    for (line, bytes) in lines {
        match take(&mut tallies, bytes) {
            Ok(()) => {}
            Err(LineError::Unwanted) => {
                return Err(ChartError::Line {
                    line,
                    wanted: Wanted::Tally,
                });
            }
            Err(LineError::NoMemory) => return Err(ChartError::NoMemory),
        }
    }
    Ok(tallies)
}

/// How many rounds an era has before its first locked configuration.
fn rounds_of(tally: Tally) -> u32 {
    tally.locked.unwrap_or(0).saturating_sub(tally.era)
}

/// How many configurations a bar stands for, if there are at most so many rounds.
fn span_of(rounds: u32) -> u32 {
    for span in &SPANS {
        if u64::from(rounds) < MOST_BARS * u64::from(*span) {
            return *span;
        }
    }
    50000
}

/// The bar in whose range a bound stands, or that after the last one.
fn bound_column(bound: u64, span: u32, columns: u32) -> u32 {
    let range = bound.checked_div(u64::from(span)).unwrap_or(0);
    u32::try_from(range).unwrap_or(columns).min(columns)
}

/// Gives each line its bar, and finds how many runs the highest one has.
fn place_all(sweep: &mut Sweep) {
    let mut before: Option<Tally> = None;
    for tally in sweep.tallies.iter_mut() {
        tally.column = match tally.locked {
            Some(_) => rounds_of(*tally).checked_div(sweep.span).unwrap_or(0),
            None => sweep.columns.saturating_add(1),
        };
        tally.upto = upto_before(before, *tally).saturating_add(tally.runs);
        sweep.most = sweep.most.max(tally.upto);
        before = Some(*tally);
    }
}

/// A height, in a hundred parts of the highest bar, rounded down.
fn height_of(runs: u32, most: u32) -> u64 {
    (u64::from(runs) * 100)
        .checked_div(u64::from(most))
        .unwrap_or(0)
}

/// The same, rounded up.
fn head_of(runs: u32, most: u32) -> u64 {
    (u64::from(runs) * 100 + u64::from(most.saturating_sub(1)))
        .checked_div(u64::from(most))
        .unwrap_or(0)
}

/// Gives each line its height.
fn scale_all(sweep: &mut Sweep) {
    for tally in sweep.tallies.iter_mut() {
        tally.foot = height_of(tally.upto.saturating_sub(tally.runs), sweep.most);
        tally.head = head_of(tally.upto, sweep.most);
    }
}

/// Adds a number below each fourth column.
fn add_numbers(sweep: &mut Sweep) -> Result<(), ChartError> {
    for column in 0..sweep.columns {
        if column % 4 == 0 {
            let number = u64::from(column) * u64::from(sweep.span);
            sweep.ticks.push(Tick { column, number })?;
        }
    }
    Ok(())
}

/// Lays out lines.
fn laid_out(alloc: Global, bound: u64, tallies: Vec<Tally>) -> Result<Sweep, ChartError> {
    let mut rounds = 0;
    let mut bands: u32 = 0;
    for tally in &tallies {
        rounds = rounds_of(*tally).max(rounds);
        bands = tally.band.saturating_add(1);
    }
    let span = span_of(rounds);
    let columns = rounds.checked_div(span).unwrap_or(0).saturating_add(1);
    let mut sweep = Sweep {
        bound,
        bound_column: bound_column(bound, span, columns),
        span,
        columns,
        bands,
        most: 0,
        tallies,
        ticks: Vec::new(alloc),
    };
    place_all(&mut sweep);
    scale_all(&mut sweep);
    add_numbers(&mut sweep)?;
    Ok(sweep)
}

/// Reads a sweep. The error is the first line that is not what should stand there, or want of
/// memory.
pub fn read_sweep(alloc: Global, text: &[u8]) -> Result<Sweep, ChartError> {
    let mut lines = Lines::new(text, 1);
    let bound = take_bound(&mut lines)?;
    let tallies = take_lines(alloc, lines)?;
    laid_out(alloc, bound, tallies)
}
