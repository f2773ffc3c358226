ghost use Rattle.std.specs.Prelude.{◌≡◌, ◌+◌, ◌*◌, ◌≤◌, length, IfOk};
ghost use Rattle.plan_finder.specs.Costs.{AreLeastCosts};
ghost use Rattle.plan_finder.specs.Least.{costs_within};
ghost use Rattle.plan_finder.specs.Best.{IsBestOf, HasFaults};

use crate::best::{Best, lesser};
use crate::pots::Pot;
use crate::rows::Rows;
use std::alloc::Global;
use sync_types::NoMemory;

/// The best levels with `f` faults, from those of each pair.
pub fn best_with(rows: &Rows<'_>, f: u64) -> Option<Best>
    requires size { length rows.now.cells.now ≡ (rows.now.most + 1) * rows.now.width }
    ensures { IsBestOf (HasFaults rows.now.most f (rows.now.most + 1)) result }
{
    if f >= rows.width as u64 {
        return None;
    }
    let mut best = None;
    for n in 0..rows.most as usize + 1 {
        best = lesser(best, rows.cells[n * rows.width + f as usize]);
    }
    best
}

/// The pairs that are reached, with their least costs, in rising order.
pub fn least_costs(alloc: Global, rows: &Rows<'_>) -> Result<Vec<Pot>, NoMemory>
    requires size { length rows.now.cells.now ≡ (rows.now.most + 1) * rows.now.width }
    requires some { 1 ≤ rows.now.most }
    ensures costs { IfOk result (λ pots. AreLeastCosts rows.now.most pots.items) }
    ensures exact { IfOk result (λ pots. pots.items ≡ costs_within rows.now.most rows.now.width) }
{
    let mut pots = Vec::new(alloc);
    for n in 0..rows.most as usize + 1 {
        for f in 0..rows.width {
            match rows.cells[n * rows.width + f] {
                None => {}
                Some(best) => {
                    let pot = Pot {
                        nodes: n as u64,
                        faults: f as u64,
                        value: best.value,
                    };
                    pots.push(pot).map_err(|_| NoMemory)?;
                }
            }
        }
    }
    Ok(pots)
}
