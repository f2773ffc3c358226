//! Whether the lines of a sweep stand where they belong.

ghost use Rattle.std.specs.Prelude.{◌≡◌, ◌*◌, ◌+◌, ◌-◌, ◌/◌, ◌≤◌, All, None, true};
ghost use Rattle.run_pictures.specs.Sweeps.{AreChained, IsBoundPlaced, IsEnd, IsPlaced};
ghost use Rattle.run_pictures.specs.Sweeps.{IsReached, IsSweepLaid, StandsAt, band_behind};
ghost use Rattle.run_pictures.specs.Sweeps.{comes_behind, has_lock, is_worst_known, last_or};
ghost use Rattle.run_pictures.specs.Sweeps.{locks_later, total_before, upto_before};

use crate::sweep_charts::{Sweep, Tally, Tick};

/// Whether a first locked configuration is later than one before; none is later than each.
fn locks_later(before: Option<u32>, locked: Option<u32>) -> bool
    ensures { result ≡ locks_later before locked }
{
    match (before, locked) {
        (None, _) => false,
        (Some(_), None) => true,
        (Some(before), Some(locked)) => before < locked,
    }
}

/// Whether a line may come after the one before it, if there is one.
pub fn comes_behind(before: Option<Tally>, tally: Tally) -> bool
    ensures { result ≡ comes_behind before tally }
{
    match before {
        None => tally.era == 0,
        Some(before) => {
            if before.era == tally.era {
                locks_later(before.locked, tally.locked)
            } else {
                before.era < tally.era
            }
        }
    }
}

/// How many eras stand before that of a line.
pub fn band_behind(before: Option<Tally>, tally: Tally) -> u64
    ensures { result ≡ band_behind before tally }
{
    match before {
        None => 0,
        Some(before) => {
            if before.era == tally.era {
                u64::from(before.band)
            } else {
                u64::from(before.band) + 1
            }
        }
    }
}

/// How many runs its era has in the lines before it.
pub fn total_before(before: Option<Tally>, tally: Tally) -> u32
    ensures { result ≡ total_before before tally }
{
    match before {
        None => 0,
        Some(before) => {
            if before.era == tally.era {
                before.total
            } else {
                0
            }
        }
    }
}

/// How many runs its bar has in the lines before it.
pub fn upto_before(before: Option<Tally>, tally: Tally) -> u32
    ensures { result ≡ upto_before before tally }
{
    match before {
        None => 0,
        Some(before) => {
            if before.era == tally.era && before.column == tally.column {
                before.upto
            } else {
                0
            }
        }
    }
}

/// Whether there is a first locked configuration.
fn has_lock(locked: Option<u32>) -> bool
    ensures { result ≡ has_lock locked }
{
    match locked {
        None => false,
        Some(_) => true,
    }
}

/// Whether the line before knows whether no line of its era after it has a first locked
/// configuration.
fn is_worst_known(before: Option<Tally>, tally: Tally) -> bool
    ensures { result ≡ is_worst_known before tally }
{
    match before {
        None => true,
        Some(before) => {
            if before.era == tally.era && has_lock(tally.locked) {
                !before.is_worst
            } else {
                before.is_worst
            }
        }
    }
}

/// Whether a bar stands where its configurations say.
fn stands_at(sweep: &Sweep, era: u32, column: u32, locked: Option<u32>) -> bool
    requires { 1 ≤ sweep.now.span }
    ensures { result ≡ true → StandsAt sweep.now era column locked }
{
    match locked {
        None => u64::from(column) == u64::from(sweep.columns) + 1,
        Some(locked) => {
            era <= locked && column == (locked - era) / sweep.span && column < sweep.columns
        }
    }
}

/// Whether the runs of a line, and those before it, are as many as it says.
fn are_summed(before: Option<Tally>, tally: Tally) -> bool
    ensures total { result ≡ true → tally.total ≡ total_before before tally + tally.runs }
    ensures upto { result ≡ true → tally.upto ≡ upto_before before tally + tally.runs }
{
    let runs = u64::from(tally.runs);
    u64::from(tally.total) == u64::from(total_before(before, tally)) + runs
        && u64::from(tally.upto) == u64::from(upto_before(before, tally)) + runs
}

/// Whether a part of a bar is as high as its runs say.
fn is_scaled(most: u32, tally: Tally) -> bool
    requires { 1 ≤ most }
    ensures foot { result ≡ true → tally.foot ≡ (tally.upto - tally.runs) * 100 / most }
    ensures head { result ≡ true → tally.head ≡ (tally.upto * 100 + (most - 1)) / most }
    ensures high { result ≡ true → tally.upto ≤ most }
{
    let upto = u64::from(tally.upto);
    let before = u64::from(tally.upto.saturating_sub(tally.runs));
    tally.upto <= most
        && tally.foot == before * 100 / u64::from(most)
        && tally.head == (upto * 100 + (u64::from(most) - 1)) / u64::from(most)
}

/// Whether a line is in its place, after the one before it.
fn is_placed(sweep: &Sweep, before: Option<Tally>, tally: Tally) -> bool
    requires span { 1 ≤ sweep.now.span }
    requires most { 1 ≤ sweep.now.most }
    ensures { result ≡ true → IsPlaced sweep.now before tally }
{
    comes_behind(before, tally)
        && is_worst_known(before, tally)
        && tally.runs >= 1
        && u64::from(tally.band) == band_behind(before, tally)
        && stands_at(sweep, tally.era, tally.column, tally.locked)
        && are_summed(before, tally)
        && is_scaled(sweep.most, tally)
}

/// Whether there is a last line, after which there is none, and its era is the last one.
fn is_end(sweep: &Sweep, last: Option<Tally>) -> bool
    ensures { result ≡ true → IsEnd sweep.now last }
{
    match last {
        None => false,
        Some(tally) => { tally.is_worst && u64::from(sweep.bands) == u64::from(tally.band) + 1 }
    }
}

/// Whether all lines are in their places.
fn are_placed(sweep: &Sweep, tallies: &[Tally]) -> bool
    requires span { 1 ≤ sweep.now.span }
    requires most { 1 ≤ sweep.now.most }
    ensures placed { result ≡ true → AreChained (IsPlaced sweep.now) None tallies.now }
    ensures ended { result ≡ true → IsEnd sweep.now (last_or None tallies.now) }
{
    let mut last: Option<Tally> = None;
    for k in 0..tallies.len() {
        let tally = tallies[k];
        if !is_placed(sweep, last, tally) {
            return false;
        }
        last = Some(tally);
    }
    is_end(sweep, last)
}

/// Whether some bar has as many runs as the highest one.
fn is_reached(most: u32, tallies: &[Tally]) -> bool
    ensures { result ≡ true → IsReached most tallies.now }
{
    for k in 0..tallies.len() {
        if tallies[k].upto == most {
            return true;
        }
    }
    false
}

/// Whether a number stands below the column that it is of.
fn is_numbered(span: u32, tick: Tick) -> bool
    ensures { result ≡ true → tick.number ≡ tick.column * span }
{
    tick.number == u64::from(tick.column) * u64::from(span)
}

/// Whether all numbers do.
fn are_numbered(span: u32, ticks: &[Tick]) -> bool
    ensures { result ≡ true → All (λ tick. tick.number ≡ tick.column * span) ticks.now }
{
    for k in 0..ticks.len() {
        if !is_numbered(span, ticks[k]) {
            return false;
        }
    }
    true
}

/// Whether the bound stands where its range does, or after the last bar.
fn is_bound_placed(sweep: &Sweep) -> bool
    requires { 1 ≤ sweep.now.span }
    ensures { result ≡ true → IsBoundPlaced sweep.now }
{
    let range = sweep.bound / u64::from(sweep.span);
    u64::from(sweep.bound_column) == range.min(u64::from(sweep.columns))
}

/// Whether the lines of a sweep stand where they belong, and its bound.
pub fn is_sweep_laid(sweep: &Sweep) -> bool
    ensures { result ≡ true → IsSweepLaid sweep.now }
{
    if sweep.span == 0 || sweep.most == 0 {
        return false;
    }
    is_bound_placed(sweep)
        && are_placed(sweep, &sweep.tallies)
        && is_reached(sweep.most, &sweep.tallies)
        && are_numbered(sweep.span, &sweep.ticks)
}
