ghost use Rattle.std.specs.Prelude.{◌+◌, ◌*◌, ◌<◌, ◌≤◌, length};
ghost use Rattle.plan_finder.specs.Costs.{Reaches};
ghost use Rattle.plan_finder.specs.Best.{AreOver, IsBestOf, IsTried};

use crate::best::{Best, Step, lesser};
use crate::costed::CostedStep;
use crate::costs::step_cost;
use crate::rows::Rows;

/// The best levels whose last step leads from a pair by a step, from the best that reach the pair.
fn stepped(front: Option<Best>, most: u64, n: u64, f: u64, last: CostedStep) -> Option<Best>
    requires nodes { (1 ≤ n) × (last.step.blocks * n ≤ most) × (most ≤ 256) }
    requires faults { (3 * last.step.faults < last.step.blocks * n) × (f ≤ 85) }
    requires front { IsBestOf (Reaches most n f) front }
    ensures { IsBestOf (AreOver most n f last.step.blocks last.step.faults) result }
{
    if last.step.faults >= (f + 1) * last.step.blocks.div_ceil(2) {
        return None;
    }
    match front {
        None => None,
        Some(best) => Some(best.with(last.step, last.cost)),
    }
}

/// The best levels that reach a pair by a last step of at most so many blocks over `n` nodes, from
/// the best with fewer blocks.
fn best_by(rows: &Rows<'_>, n: u64, last: CostedStep, known: Option<Best>) -> Option<Best>
    requires nodes { (1 ≤ n) × (last.step.blocks * n ≤ rows.now.most) }
    requires faults { 3 * last.step.faults < last.step.blocks * n }
    requires there { (n + 1) * rows.now.width ≤ length rows.now.cells.now }
    requires known { IsBestOf
        (IsTried rows.now.most (last.step.blocks * n) last.step.faults last.step.blocks 0) known }
    ensures { IsBestOf
        (IsTried rows.now.most (last.step.blocks * n) last.step.faults (last.step.blocks + 1) 0)
        result }
{
    let mut best = known;
    for f in 0..rows.width {
        let front = rows.cells[n as usize * rows.width + f];
        best = lesser(best, stepped(front, rows.most, n, f as u64, last));
    }
    best
}

/// The best levels that reach a pair, from those of the pairs of fewer nodes.
pub fn best_at(rows: &Rows<'_>, n: u64, g: u64) -> Option<Best>
    requires nodes { n ≤ rows.now.most }
    requires faults { g ≤ 85 }
    requires there { n * rows.now.width ≤ length rows.now.cells.now }
    ensures { IsBestOf (Reaches rows.now.most n g) result }
{
    if n == 1 && g == 0 {
        return Some(Best::start());
    }
    if n < 2 || n <= 3 * g {
        return None;
    }
    let mut best = None;
    for k in 3..17 {
        if n % k != 0 {
            continue;
        }
        let Some(cost) = step_cost(k, g) else {
            continue;
        };
        let step = Step {
            blocks: k,
            faults: g,
        };
        best = best_by(rows, n / k, CostedStep { step, cost }, best);
    }
    best
}
