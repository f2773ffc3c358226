//! The front of nodes and bound of both constructions.

ghost use Rattle.std.specs.Prelude.{◌≡◌, ◌≤◌, ◌^◌, ◌+◌, ◌*◌, IfOk};
ghost use Rattle.choose.specs.FrontsOfBoth.{IsFrontOfBoth};

use crate::any_plans::AnyPlan;
use crate::searching::one_node;
use halving_plan::HalvingPlan;
use std::alloc::Global;
use sync_types::NoMemory;

/// The halving plan of fewest nodes that tolerates `f` faults.
pub fn fewest_nodes(f: u64, c: u64) -> HalvingPlan
    requires faults { (1 ≤ f) × (f ≤ 85) }
    requires modulus { (2 ≤ c) × (c ≤ 2 ^ 40) }
    ensures { result ≡ record { nodes = 3 * f + 1; faults = f; modulus = c } }
{
    match HalvingPlan::new(3 * f + 1, f, c) {
        Ok(plan) => plan,
        Err(_) => unreachable!(),
    }
}

/// The front of nodes and bound of all accepted plans of both constructions that tolerate `f`
/// faults or more and have at most `most` nodes: it is one plan, which counts by `c`, or none. Each
/// accepted plan that tolerates `f` faults with at most `most` nodes, whatever it counts by, has at
/// least its nodes and its bound; there is none exactly if there is no such plan. If no fault is to
/// be tolerated it is a plan of one node, of the boosting construction; else it is a halving plan.
/// `f` is at most 85, `c` from 2 to 2^40, `most` at most 256.
pub fn front_of_both(alloc: Global, f: u64, c: u64, most: u64) -> Result<Option<AnyPlan>, NoMemory>
    requires faults { f ≤ 85 }
    requires modulus { (2 ≤ c) × (c ≤ 2 ^ 40) }
    requires most { most ≤ 256 }
    ensures { IfOk result (λ plan. IsFrontOfBoth f c most plan) }
{
    if most <= 3 * f {
        return Ok(None);
    }
    if f == 0 {
        let plan = one_node(alloc, c)?;
        return Ok(Some(AnyPlan::Boosting(plan)));
    }
    Ok(Some(AnyPlan::Halving(fewest_nodes(f, c))))
}
