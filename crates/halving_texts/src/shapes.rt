ghost use Rattle.std.specs.Prelude.{◌≡◌, IfOk};
ghost use Rattle.halving_texts.specs.HalvingShapes.{shape_of};

use halving_plan::{HalvingPlan, all_nodes_fields};
use state_codec::StateShape;
use std::alloc::Global;
use sync_types::NoMemory;

/// The shape of the states of a plan. The only error is want of memory.
pub fn shape_of(alloc: Global, plan: &HalvingPlan) -> Result<StateShape, NoMemory>
    ensures { IfOk result (λ shape. shape ≡ shape_of plan.now) }
{
    plan.facts();
    let fields = all_nodes_fields(alloc, plan)?;
    StateShape::by_node(alloc, plan.depth(), &fields)
}
