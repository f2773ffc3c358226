//! Finds the nodes that the start of an era put into another state, as far as counts show it.

use crate::charts::{Cell, Chart, End};
use picture_parts::breaks;

/// The largest output of a chart.
fn most_shown(cells: &[Cell]) -> u64 {
    let mut most = 0;
    for cell in cells {
        most = cell.shown.unwrap_or(0).max(most);
    }
    most
}

/// Marks the nodes that the start of an era hits in a row, if the row before it is locked: those
/// which are correct in both rows and do not count on.
fn mark_row(cells: &mut [Cell], nodes: usize, row: usize, most: u64) {
    for node in 0..nodes {
        let now = row.saturating_mul(nodes).saturating_add(node);
        let before = now.saturating_sub(nodes);
        if now < cells.len() {
            let is_hit = breaks(most, cells[before].shown, cells[now].shown);
            cells[now].is_hit = is_hit;
        }
    }
}

/// The row in which the next era begins, if its start is seen: the row before is shown, and locked.
fn seen_start(first: u32, end: End) -> Option<u32> {
    match (end.locked, end.next) {
        (Some(locked), Some(next)) if locked < next && first < next => Some(next - first),
        _ => None,
    }
}

/// Marks the nodes that the starts of eras hit, as far as the rows show it.
pub fn mark_hits(chart: &mut Chart) {
    let most = most_shown(&chart.cells);
    for end in chart.ends.iter() {
        if let Some(row) = seen_start(chart.first, *end) {
            mark_row(
                &mut chart.cells,
                usize::from(chart.nodes),
                row as usize,
                most,
            );
        }
    }
}
