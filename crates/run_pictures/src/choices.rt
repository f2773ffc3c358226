//! What `choose` writes: plans, a line for each.

ghost use Rattle.std.specs.Prelude.{◌≡◌, ◌≤◌, ◌<◌, ◌^◌, ◌*◌, ◌/◌, ◌+◌, All, IfSome, true};
ghost use Rattle.edge_io.specs.Writing.{Writes};
ghost use Rattle.run_pictures.specs.Choices.{ArePlotted, IsPlotted, is_between, is_better};
ghost use Rattle.run_pictures.specs.Choices.{is_halving, is_plain, on_scale, point_words};

use edge_io::{Lines, Piece, Sink, Words, Writer, first_line, number};
use picture_parts::{ChartError, LineError, Wanted, next_is, number_behind};
use std::alloc::Global;

/// A bound is below this.
const MOST_BOUND: u64 = 1 << 50;

/// A plan, and where it is drawn: by its nodes, and by its bound on a scale of decades.
#[derive(Clone, Copy)]
pub struct Point<'a> {
    pub nodes: u32,
    pub bound: u64,
    pub bytes: u64,
    pub levels: u64,
    /// Its text, in one line.
    pub plan: &'a [u8],
    /// How many digits the bound has, less one.
    pub decade: u32,
    /// Its first two digits, or ten times a bound of one digit.
    pub part: u32,
}

/// Plans, as `choose` writes them.
#[derive(Drop)]
pub struct Choice<'a> {
    pub points: Vec<Point<'a>>,
    /// How many faults all of them tolerate, if it is one number.
    pub faults: Option<u64>,
}

// ---- the text

/// Writes a line, without its newline.
pub fn put_point_words<K: Sink>(writer: &mut Writer<'_, K>, point: &Point<'_>)
    ensures { Writes K.told (point_words point.now) writer.old writer.new }
{
    writer.pieces(&[
        Piece::Text(b"nodes "),
        Piece::Number(u64::from(point.nodes)),
        Piece::Text(b" bound "),
        Piece::Number(point.bound),
        Piece::Text(b" bytes "),
        Piece::Number(point.bytes),
        Piece::Text(b" levels "),
        Piece::Number(point.levels),
        Piece::Text(b" "),
        Piece::Text(point.plan),
    ]);
}

// ---- where the plans stand

/// Whether a byte is one of these, or between them.
fn is_between(least: u8, most: u8, byte: u8) -> bool
    ensures { result ≡ is_between least most byte }
{
    least <= byte && byte <= most
}

/// Whether a byte is a small letter, a digit, a space or a semicolon.
fn is_plain(byte: u8) -> bool
    ensures { result ≡ is_plain byte }
{
    byte == 32 || byte == 59 || is_between(48, 57, byte) || is_between(97, 122, byte)
}

/// Whether all bytes are.
fn are_plain(bytes: &[u8]) -> bool
    ensures { result ≡ true → All (λ byte. is_plain byte ≡ true) bytes.now }
{
    for k in 0..bytes.len() {
        if !is_plain(bytes[k]) {
            return false;
        }
    }
    true
}

/// Where a bound stands on the scale of decades: 0 stands where 1 does.
fn on_scale(bound: u64) -> u64
    ensures value { result ≡ on_scale bound }
    ensures least { 1 ≤ result }
    ensures most { result ≤ bound + 1 }
{
    if bound == 0 { 1 } else { bound }
}

/// The first two digits of a bound in its decade, or ten times a bound of one digit.
fn part_of(bound: u64, decade: u32) -> Option<u64>
    requires { bound < 2 ^ 50 }
    ensures least { IfSome result (λ _. 10 ^ decade ≤ on_scale bound) }
    ensures most { IfSome result (λ _. on_scale bound < 10 * 10 ^ decade) }
    ensures part { IfSome result (λ part. part ≡ on_scale bound * 10 / 10 ^ decade) }
{
    let bound = on_scale(bound);
    if decade != bound.ilog10() {
        return None;
    }
    Some(bound * 10 / 10u64.pow(decade))
}

/// Whether a bound is in its decade, and has these first two digits.
fn is_scaled(bound: u64, decade: u32, part: u32) -> bool
    ensures least { result ≡ true → 10 ^ decade ≤ on_scale bound }
    ensures most { result ≡ true → on_scale bound < 10 * 10 ^ decade }
    ensures part { result ≡ true → part ≡ on_scale bound * 10 / 10 ^ decade }
{
    if bound >= MOST_BOUND {
        return false;
    }
    match part_of(bound, decade) {
        Some(found) => u64::from(part) == found,
        None => false,
    }
}

/// Whether a plan is a halving plan; else it is a boosting plan.
pub fn is_halving(point: Point<'_>) -> bool
    ensures { result ≡ is_halving point.entry }
{
    point.plan.starts_with(b"halving ")
}

/// Whether a plan has more nodes than the one before it, if there is one, and a lesser bound; or is
/// the first boosting plan after halving plans.
fn is_better(before: Option<Point<'_>>, point: Point<'_>) -> bool
    ensures { result ≡ is_better before.entry point.entry }
{
    match before {
        None => true,
        Some(before) => {
            if is_halving(before) && !is_halving(point) {
                true
            } else {
                before.nodes < point.nodes && point.bound < before.bound
            }
        }
    }
}

/// Whether a plan is in its place, after the one before it.
fn is_plotted(before: Option<Point<'_>>, point: Point<'_>) -> bool
    ensures { result ≡ true → IsPlotted before.entry point.entry }
{
    is_better(before, point)
        && point.nodes <= 256
        && is_scaled(point.bound, point.decade, point.part)
        && are_plain(point.plan)
}

/// Whether all plans are.
pub fn are_plotted(points: &[Point<'_>]) -> bool
    ensures { result ≡ true → ArePlotted points.now }
{
    let mut last: Option<Point<'_>> = None;
    for k in 0..points.len() {
        let point = points[k];
        if !is_plotted(last, point) {
            return false;
        }
        last = Some(point);
    }
    true
}

// ---- reading

/// What stands after the first eight words of a line.
fn plan_of(line: &[u8]) -> &[u8] {
    let mut rest = line;
    for _ in 0..8 {
        match rest.iter().position(|byte| *byte == b' ') {
            Some(end) => rest = rest.get(end.saturating_add(1)..).unwrap_or(&[]),
            None => return &[],
        }
    }
    rest
}

/// The number after a key, both of which are the next words.
fn number_next(words: &mut Words<'_>, key: &[u8]) -> Option<u64> {
    if next_is(words, key) {
        number(words.next()?)
    } else {
        None
    }
}

/// What a line says.
fn point_of(line: &[u8]) -> Option<Point<'_>> {
    let mut words = Words::new(line);
    let nodes = number_behind(&mut words, b"nodes")?;
    let bound = number_next(&mut words, b"bound")?;
    let bytes = number_next(&mut words, b"bytes")?;
    let levels = number_next(&mut words, b"levels")?;
    if bound >= MOST_BOUND {
        return None;
    }
    let decade = on_scale(bound).checked_ilog10()?;
    let part = u32::try_from(part_of(bound, decade)?).ok()?;
    Some(Point {
        nodes,
        bound,
        bytes,
        levels,
        plan: plan_of(line),
        decade,
        part,
    })
}

/// The last part of a plan's text that says a level or a group, as `group 10 3 1000`.
fn last_group(plan: &[u8]) -> &[u8] {
    let mut last = 0;
    let mut next = 0;
    for place in 0..plan.len() {
        if plan[place] == b';' {
            last = next;
            next = place + 1;
        }
    }
    plan.get(last..next.saturating_sub(1)).unwrap_or(&[])
}

/// How many faults a plan tolerates, as its text says.
fn faults_of(plan: &[u8]) -> Option<u64> {
    let mut words = Words::new(last_group(plan));
    let _word = words.next()?;
    let _nodes = words.next()?;
    number(words.next()?)
}

/// How many faults all plans tolerate, if it is one number.
fn faults_in(points: &[Point<'_>]) -> Option<u64> {
    let faults = faults_of(points.first()?.plan);
    for point in points {
        if faults_of(point.plan) != faults {
            return None;
        }
    }
    faults
}

/// Whether a text begins with a line of a choice.
pub fn is_choice(text: &[u8]) -> bool {
    if text.is_empty() {
        return false;
    }
    let (line, _) = first_line(text);
    point_of(line).is_some()
}

/// Takes a line, after those before it.
fn take<'a>(points: &mut Vec<Point<'a>>, line: &'a [u8]) -> Result<(), LineError> {
    let Some(point) = point_of(line) else {
        return Err(LineError::Unwanted);
    };
    if !is_plotted(points.last().copied(), point) {
        return Err(LineError::Unwanted);
    }
    points.push(point)?;
    Ok(())
}

/// Reads plans. The error is the first line that is not what should stand there, or want of memory.
pub fn read_choice(alloc: Global, text: &[u8]) -> Result<Choice<'_>, ChartError> {
    let mut points = Vec::new(alloc);
    for (line, bytes) in Lines::new(text, 1) {
        match take(&mut points, bytes) {
            Ok(()) => {}
            Err(LineError::Unwanted) => {
                return Err(ChartError::Line {
                    line,
                    wanted: Wanted::Plan,
                });
            }
            Err(LineError::NoMemory) => return Err(ChartError::NoMemory),
        }
    }
    let faults = faults_in(&points);
    Ok(Choice { points, faults })
}
