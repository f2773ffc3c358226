//! The front of nodes and bound, which grows with the nodes.

ghost use Rattle.std.specs.Prelude.{◌≤◌, ◌^◌, IfOk, MatchBool};
ghost use Rattle.std.specs.List.{All, Any};
ghost use Rattle.choose.specs.Fronts.{IsFront};
ghost use Rattle.choose.specs.Least.{HasMore, HasNoMore, IsNext};

use crate::searching::least_plan;
use plan_numbers::Plan;
use std::alloc::Global;
use sync_types::NoMemory;

/// Whether a plan has a lesser bound than each of others; else one of them has no more.
fn has_less(plan: &Plan, others: &[Plan]) -> bool
    ensures { MatchBool result
        (All (HasMore plan.now) others.now) (Any (HasNoMore plan.now) others.now) }
{
    for other in others {
        if other.bound() <= plan.bound() {
            return false;
        }
    }
    true
}

/// The plans, and after them one more if it has a lesser bound than each of them.
fn with_next(plans: Vec<Plan>, plan: Option<Plan>) -> Result<Vec<Plan>, NoMemory>
    ensures { IfOk result (λ next. IsNext plans.items plan next.items) }
{
    let Some(more) = plan else {
        return Ok(plans);
    };
    if !has_less(&more, &plans) {
        return Ok(plans);
    }
    let mut next = plans;
    next.push(more).map_err(|_| NoMemory)?;
    Ok(next)
}

/// The front of nodes and bound of all accepted plans, of either version, that tolerate `f` faults
/// or more and have at most `most` nodes: plans of version 2 that count by `c`, each next one with
/// more nodes and a lesser bound. Each accepted plan that tolerates `f` faults with at most `most`
/// nodes, whatever it counts by, has at least the nodes and the bound of one of these; there are
/// none exactly if there is no such plan. `f` is at most 85, `c` from 2 to 2^40, `most` at most
/// 256.
pub fn front(alloc: Global, f: u64, c: u64, most: u64) -> Result<Vec<Plan>, NoMemory>
    requires faults { f ≤ 85 }
    requires modulus { (2 ≤ c) × (c ≤ 2 ^ 40) }
    requires most { most ≤ 256 }
    ensures { IfOk result (λ plans. IsFront f c most plans.items) }
{
    let mut plans = Vec::new(alloc);
    for n in 0..most {
        let plan = least_plan(alloc, n + 1, f, c)?;
        plans = with_next(plans, plan)?;
    }
    Ok(plans)
}
