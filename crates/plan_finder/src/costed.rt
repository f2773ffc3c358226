ghost use Rattle.std.specs.Prelude.{◌≡◌, ◌≤◌, ◌^◌};
ghost use Rattle.plan_finder.specs.Steps.{cost_of};

use crate::best::Step;

/// A step that a plan may have, with its cost.
#[derive(Clone, Copy, Debug)]
pub struct CostedStep {
    pub step: Step,
    pub cost: u64,
    ghost few_blocks: { (3 ≤ step.blocks) × (step.blocks ≤ 16) },
    ghost few_faults: { step.faults ≤ 85 },
    ghost is_cost: { (cost ≡ cost_of step.blocks step.faults) × (cost ≤ 2 ^ 40) },
}
