ghost use Rattle.std.specs.Prelude.{◌≡◌};
ghost use Rattle.halving_plan.specs.OutputPlaces.{output_start, output_bits};

use crate::HalvingPlan;
use plan_numbers::width;

/// From which bit of a node's states on their output stands. Bit 0 is the highest bit of the first
/// byte.
pub fn output_start(plan: &HalvingPlan, node: u32) -> u32
    ensures { result ≡ output_start plan.now node }
{
    if plan.faults() == 0 {
        0
    } else {
        width(plan.base_of(node))
    }
}

/// How many bits the output has there. A number that is not below the modulus shows as 0.
pub fn output_bits(plan: &HalvingPlan) -> u32
    ensures { result ≡ output_bits plan.now }
{
    plan.facts();
    if plan.faults() == 0 {
        width(plan.modulus())
    } else {
        width(plan.modulus() + 1)
    }
}
