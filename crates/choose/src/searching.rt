//! Searches the plan of least bound. What stands below a level of `k` blocks has to tolerate so
//! many faults that the blocks can share the level's, with a share of the nodes, and to count by
//! the level's span; the least of such plans is searched in the same way.

ghost use Rattle.std.specs.Prelude.{◌≡◌, ◌+◌, ◌-◌, ◌*◌, ◌<◌, ◌≤◌, ◌^◌, [], IfOk};
ghost use Rattle.construction.specs.Plans.{plan_nodes};
ghost use Rattle.plan_numbers.specs.Numbers.{line, with_level};
ghost use Rattle.choose.specs.Fronts.{Bears};
ghost use Rattle.choose.specs.Least.{FitsBlocks, HasTop, IsLeastOf, IsLesser};

use plan_finder::step_cost;
use plan_numbers::{Plan, PremiseError};
use std::alloc::Global;
use sync_types::NoMemory;

/// The plan of one node that counts by `c`.
pub fn one_node(alloc: Global, c: u64) -> Result<Plan, NoMemory>
    requires { (2 ≤ c) × (c ≤ 2 ^ 40) }
    ensures { IfOk result (λ plan. plan ≡ record { version = 2; base = c; levels = [] }) }
{
    match Plan::base_of(alloc, 2, c) {
        Ok(plan) => Ok(plan),
        Err(PremiseError::NoMemory) => Err(NoMemory),
        Err(PremiseError::Refused(_)) => unreachable!(),
    }
}

/// The plan with a level of `k` blocks on top that tolerates `f` faults and counts by `c`, with no
/// more spare nodes than it needs for them.
fn topped(below: Plan, k: u64, f: u64, c: u64) -> Plan
    requires blocks { (3 ≤ k) × (k ≤ 16) }
    requires faults { f ≤ 85 }
    requires modulus { (2 ≤ c) × (c ≤ 2 ^ 40) }
    requires below { FitsBlocks k f below }
    ensures { result ≡ with_level below (line k f c (3 * f + 1 - k * plan_nodes below)) }
{
    let mut plan = below;
    let spares = (3 * f + 1).saturating_sub(k * u64::from(plan.nodes()));
    plan.push_with(k, f, c, spares).unwrap();
    plan
}

/// The one of two plans that has the lesser bound, and the first if neither has.
fn lesser(known: Option<Plan>, other: Option<Plan>) -> Option<Plan>
    ensures { IsLesser known other result }
{
    let Some(more) = other else {
        return known;
    };
    match known {
        None => Some(more),
        Some(plan) => {
            if more.bound() < plan.bound() {
                Some(more)
            } else {
                Some(plan)
            }
        }
    }
}

/// The plan of least bound of those that tolerate `f` faults with at most `n` nodes and a top level
/// of `k` blocks, counting by `c`: None exactly if there is none.
#[cycle(least)]
fn least_with(alloc: Global, n: u64, f: u64, c: u64, k: u64) -> Result<Option<Plan>, NoMemory>
    requires blocks { (3 ≤ k) × (k ≤ 16) }
    requires faults { (1 ≤ f) × (3 * f < n) }
    requires nodes { n ≤ 256 }
    requires modulus { (2 ≤ c) × (c ≤ 2 ^ 40) }
    ensures { IfOk result (λ plan. IsLeastOf c (HasTop n f (λ blocks. blocks ≡ k)) plan) }
{
    let Some(span) = step_cost(k, f) else {
        return Ok(None);
    };
    match least_plan(alloc, n / k, f / k.div_ceil(2), span)? {
        None => Ok(None),
        Some(below) => Ok(Some(topped(below, k, f, c))),
    }
}

/// The plan of least bound of those that tolerate `f` faults with at most `n` nodes, counting by
/// `c`: None exactly if there is none. It is one of version 2, and no plan has less, of either
/// version, whatever it counts by.
#[cycle(least)]
pub fn least_plan(alloc: Global, n: u64, f: u64, c: u64) -> Result<Option<Plan>, NoMemory>
    requires nodes { n ≤ 256 }
    requires faults { f ≤ 85 }
    requires modulus { (2 ≤ c) × (c ≤ 2 ^ 40) }
    ensures { IfOk result (λ plan. IsLeastOf c (Bears n f) plan) }
{
    if n <= 3 * f {
        return Ok(None);
    }
    if f == 0 {
        return Ok(Some(one_node(alloc, c)?));
    }
    let mut best = None;
    for k in 3..17 {
        best = lesser(best, least_with(alloc, n, f, c, k)?);
    }
    Ok(best)
}
