//! The shapes of the states of plans.

ghost use Rattle.std.specs.Prelude.{◌≡◌, IfOk};
ghost use Rattle.state_codec.specs.Shapes as boosting;
ghost use Rattle.plan_machine.specs.PlanMachines.{machine_of_plan};
ghost use Rattle.halving_texts.specs.HalvingShapes as halving;
ghost use Rattle.halving_plan.specs.Laws.{machine_in};
ghost use Rattle.machine_runner.specs.Laws.{IsShapeOf};

use halving_plan::HalvingPlan;
use plan_numbers::Plan;
use state_codec::StateShape;
use std::alloc::Global;
use sync_types::NoMemory;

/// The shape of the states of a plan of levels over blocks.
pub fn boosting_shape(alloc: Global, plan: &Plan) -> Result<StateShape, NoMemory>
    ensures value { IfOk result (λ shape. shape ≡ boosting.shape_of plan.now) }
    ensures fits { IfOk result (λ shape. IsShapeOf (machine_of_plan plan.now) shape) }
{
    let shape = StateShape::of(alloc, plan)?;
    shape.facts();
    Ok(shape)
}

/// The shape of the states of a halving plan.
pub fn halving_shape(alloc: Global, plan: &HalvingPlan) -> Result<StateShape, NoMemory>
    ensures value { IfOk result (λ shape. shape ≡ halving.shape_of plan.now) }
    ensures fits { IfOk result (λ shape. IsShapeOf (machine_in plan.now) shape) }
{
    plan.facts();
    halving_texts::shape_of(alloc, plan)
}
