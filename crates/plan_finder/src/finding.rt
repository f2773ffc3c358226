ghost use Rattle.std.specs.Prelude.{◌≡◌, ◌≤◌, ◌^◌, IfOk};
ghost use Rattle.plan_finder.specs.Wanted.{IsPlanFor};
ghost use Rattle.plan_finder.specs.Costs.{AreLeastCosts};
ghost use Rattle.plan_finder.specs.Least.{find_plan, costs_of};
ghost use Rattle.plan_finder.specs.Potentials.{ArePotentials, bound_in};

use crate::building::plan_if;
use crate::choosing::{best_with, least_costs};
use crate::pots::Pots;
use crate::rows::Rows;
use crate::table::best_cells;
use plan_numbers::Plan;
use std::alloc::Global;
use sync_types::NoMemory;

/// What [`find`] answers.
#[derive(Debug, Drop)]
pub struct Found {
    /// The least plan that meets the wants, None exactly if no accepted plan does.
    pub plan: Option<Plan>,
    /// In rising order of nodes and faults each pair that steps reach, with its least cost.
    pub pots: Pots,
}

/// The least plan of version 1 that tolerates `f` faults and counts by `c`, with at most `most`
/// nodes, and the least cost of each pair of nodes and faults. `f` is at most 85, `c` from 2 to
/// 2^40, `most` from 1 to 256.
///
/// Plans are compared by their bounds, their nodes, how many levels they have, the blocks and
/// faults of these from the lowest up, and their moduli from that of the base up. The pairs pass
/// [`crate::check_potentials`] with the bound of the plan.
pub fn find(alloc: Global, f: u64, c: u64, most: u64) -> Result<Found, NoMemory>
    requires faults { f ≤ 85 }
    requires modulus { (2 ≤ c) × (c ≤ 2 ^ 40) }
    requires most { (1 ≤ most) × (most ≤ 256) }
    ensures plan { IfOk result (λ found. IsPlanFor f c most found.plan) }
    ensures costs { IfOk result (λ found. AreLeastCosts most found.pots) }
    ensures exact { IfOk result
        (λ found. (found.plan ≡ find_plan f c most) × (found.pots ≡ costs_of most)) }
    ensures passes { IfOk result (λ found. ArePotentials f most (bound_in found.plan) found.pots) }
{
    let width = most as usize / 3 + 1;
    let cells = best_cells(alloc, most, width)?;
    let rows = Rows {
        cells: &cells,
        most,
        width,
    };
    let pots = Pots::new(least_costs(alloc, &rows)?);
    let best = best_with(&rows, f);
    let plan = plan_if(alloc, best, c, most)?;
    Ok(Found { plan, pots })
}
