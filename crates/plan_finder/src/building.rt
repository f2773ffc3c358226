ghost use Rattle.std.specs.Prelude.{◌≡◌, ◌≤◌, ◌^◌, IfOk, IfSome};
ghost use Rattle.std.specs.List.{All};
ghost use Rattle.plan_finder.specs.Steps.{IsPath};
ghost use Rattle.plan_finder.specs.Best.{levels_by, levels_in, IsValidBest};
ghost use Rattle.plan_finder.specs.Building.{plan_with, modulus_under, IsUsable, IsBuilt};
ghost use Rattle.plan_numbers.specs.Premises.{IsAccepted};

use crate::best::{Best, Step};
use crate::costs::step_cost;
use plan_numbers::{Plan, PremiseError};
use std::alloc::Global;
use sync_types::NoMemory;

/// The modulus that stands below these steps: the cost of the lowest, or `c` if there is none.
fn modulus_under(steps: &[Step], c: u64) -> u64
    requires { All IsUsable steps.now }
    ensures { result ≡ modulus_under c steps.now }
{
    let [step, ..] = steps else {
        return c;
    };
    match step_cost(step.blocks, step.faults) {
        Some(cost) => cost,
        None => c,
    }
}

/// The plan of these levels that counts by `c`, with the least moduli.
pub fn plan_of(alloc: Global, steps: &[Step], c: u64, most: u64) -> Result<Plan, NoMemory>
    requires path { IsPath most (levels_by steps.now) }
    requires modulus { (2 ≤ c) × (c ≤ 2 ^ 40) }
    requires most { most ≤ 256 }
    ensures value { IfOk result (λ plan. plan ≡ plan_with c (levels_by steps.now)) }
    ensures accepted { IfOk result (λ plan. IsAccepted plan) }
{
    let mut plan = match Plan::base(alloc, modulus_under(steps, c)) {
        Ok(plan) => plan,
        Err(PremiseError::NoMemory) => return Err(NoMemory),
        Err(PremiseError::Refused(_)) => unreachable!(),
    };
    for i in 0..steps.len() {
        let step = steps[i];
        let modulus = modulus_under(&steps[i + 1..], c);
        plan.push(step.blocks, step.faults, modulus).unwrap();
    }
    plan.facts();
    Ok(plan)
}

/// The plan of the best levels, if there are any.
pub fn plan_if(
    alloc: Global,
    best: Option<Best>,
    c: u64,
    most: u64,
) -> Result<Option<Plan>, NoMemory>
    requires best { IfSome best (λ best. IsValidBest best × IsPath most (levels_in best)) }
    requires modulus { (2 ≤ c) × (c ≤ 2 ^ 40) }
    requires most { most ≤ 256 }
    ensures { IfOk result (λ plan. IsBuilt c best plan) }
{
    match best {
        None => Ok(None),
        Some(best) => {
            let plan = plan_of(alloc, &best.steps[..best.depth], c, most)?;
            Ok(Some(plan))
        }
    }
}
