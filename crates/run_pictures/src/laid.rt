//! Whether the words of a chart stand where they belong, and the lines after its rows.

ghost use Rattle.std.specs.Prelude.{◌≡◌, ◌+◌, ◌*◌, ◌<◌, length, map, All, true};
ghost use Rattle.std.specs.List.{range_with_len};
ghost use Rattle.run_pictures.specs.Laid.{AreNext, IsLaid};
ghost use Rattle.picture_parts.specs.Moduli.{HasOutput, IsBelow, IsModulusOf};

use crate::charts::{Cell, Chart, End};
use picture_parts::is_below;

/// The place of a word, in rows of so many nodes.
fn place_of(cell: Cell, nodes: u16) -> u64
    ensures { result ≡ cell.row * nodes + cell.node }
{
    u64::from(cell.row) * u64::from(nodes) + u64::from(cell.node)
}

/// Whether words come row by row, and in a row of so many nodes node by node.
fn are_words_laid(nodes: u16, cells: &[Cell]) -> bool
    ensures words { result ≡ true → map (λ cell. cell.row * nodes + cell.node) cells.now
        ≡ range_with_len 0 (length cells.now) }
    ensures nodes { result ≡ true → All (λ cell. cell.node < nodes) cells.now }
{
    for k in 0..cells.len() {
        let cell = cells[k];
        if cell.node >= nodes || place_of(cell, nodes) != k as u64 {
            return false;
        }
    }
    true
}

/// Whether lines know their places.
fn are_lines_laid(ends: &[End]) -> bool
    ensures { result ≡ true → map (λ end. end.place) ends.now
        ≡ range_with_len 0 (length ends.now) }
{
    for k in 0..ends.len() {
        if ends[k].place as usize != k {
            return false;
        }
    }
    true
}

/// Whether each line knows where the era of the next one begins.
fn are_next(ends: &[End]) -> bool
    ensures { result ≡ true → AreNext ends.now }
{
    match ends {
        [] => true,
        [end] => end.next.is_none(),
        [end, behind @ ..] => end.next == behind[0].era && are_next(behind),
    }
}

/// Whether all outputs are.
fn are_below(modulus: u64, cells: &[Cell]) -> bool
    ensures { result ≡ true → All (λ cell. IsBelow modulus cell.shown) cells.now }
{
    for k in 0..cells.len() {
        if !is_below(modulus, cells[k].shown) {
            return false;
        }
    }
    true
}

/// Whether an output is shown.
fn has_output(cells: &[Cell], wanted: u64) -> bool
    ensures { result ≡ true → HasOutput (λ cell. cell.shown) cells.now wanted }
{
    for k in 0..cells.len() {
        if cells[k].shown == Some(wanted) {
            return true;
        }
    }
    false
}

/// Whether a number is the least one above all outputs.
fn is_modulus_of(cells: &[Cell], modulus: u64) -> bool
    ensures { result ≡ true → IsModulusOf (λ cell. cell.shown) cells.now modulus }
{
    are_below(modulus, cells) && (modulus == 0 || has_output(cells, modulus - 1))
}

/// Whether the words of a chart stand where they belong, and the lines after its rows, and whether
/// colours go by what the outputs count by.
pub fn is_laid(chart: &Chart) -> bool
    ensures { result ≡ true → IsLaid chart.now }
{
    let words = chart.cells.len() as u64;
    chart.rows >= 1
        && chart.nodes >= 1
        && words == u64::from(chart.rows) * u64::from(chart.nodes)
        && are_words_laid(chart.nodes, &chart.cells)
        && are_lines_laid(&chart.ends)
        && are_next(&chart.ends)
        && is_modulus_of(&chart.cells, chart.modulus)
}
