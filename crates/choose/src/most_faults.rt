//! The plan of most faults within so many nodes and rounds.

ghost use Rattle.std.specs.Prelude.{◌≤◌, ◌^◌, IfOk};
ghost use Rattle.std.specs.Int.{div_ceil};
ghost use Rattle.choose.specs.MostFaults.{AreMost, IsMost};

use crate::any_plans::AnyPlan;
use crate::fronts_of_both::fewest_nodes;
use crate::searching::one_node;
use std::alloc::Global;
use sync_types::NoMemory;

/// The most faults that a halving plan tolerates within `n` nodes and `t` rounds.
fn faults_within(n: u64, t: u64) -> u64
    requires { (1 ≤ n) × (n ≤ 256) }
    ensures { AreMost n t (div_ceil n 3) result }
{
    let mut most = 0;
    for f in 1..n.div_ceil(3) {
        if fewest_nodes(f, 2).bound() <= t {
            most = f;
        }
    }
    most
}

/// The plan that tolerates the most faults of all accepted plans of both constructions with at most
/// `n` nodes and a bound of at most `t`. It counts by `c`; no such plan tolerates more, whatever it
/// counts by, and none that tolerates as many within `n` nodes has fewer nodes or a lesser bound.
/// If it tolerates a fault it is a halving plan, else a plan of one node of the boosting
/// construction. `n` is from 1 to 256, `c` from 2 to 2^40.
pub fn most_plan(alloc: Global, n: u64, t: u64, c: u64) -> Result<AnyPlan, NoMemory>
    requires nodes { (1 ≤ n) × (n ≤ 256) }
    requires modulus { (2 ≤ c) × (c ≤ 2 ^ 40) }
    ensures { IfOk result (IsMost n t c) }
{
    let f = faults_within(n, t);
    if f == 0 {
        let plan = one_node(alloc, c)?;
        return Ok(AnyPlan::Boosting(plan));
    }
    Ok(AnyPlan::Halving(fewest_nodes(f, c)))
}
