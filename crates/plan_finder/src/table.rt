ghost use Rattle.std.specs.Prelude.{◌≡◌, ◌+◌, ◌*◌, ◌<◌, ◌≤◌, length, IfOk};
ghost use Rattle.plan_finder.specs.Best.{AreBest};

use crate::best::Best;
use crate::rows::Rows;
use crate::searching::best_at;
use std::alloc::Global;
use sync_types::NoMemory;

/// The best levels that reach each pair of at most `most` nodes and fewer faults than `width`, row
/// by row: those of n nodes and f faults at `n * width + f`.
pub fn best_cells(alloc: Global, most: u64, width: usize) -> Result<Vec<Option<Best>>, NoMemory>
    requires { (most ≤ 256) × (most < 3 * width) × (width ≤ 86) }
    ensures best { IfOk result (λ cells. AreBest most width cells.items) }
    ensures size { IfOk result (λ cells. length cells.items ≡ (most + 1) * width) }
{
    let mut cells = Vec::with_capacity(alloc, (most as usize + 1) * width)?;
    for n in 0..most as usize + 1 {
        for g in 0..width {
            let rows = Rows {
                cells: &cells,
                most,
                width,
            };
            let best = best_at(&rows, n as u64, g as u64);
            cells.push(best).map_err(|_| NoMemory)?;
        }
    }
    Ok(cells)
}
