ghost use Rattle.std.specs.Prelude.{◌≡◌, ◌<◌, ℕ, IfOk};
ghost use Rattle.sync_types.specs.States.{State};
ghost use Rattle.construction.specs.Plans.{Plan, plan_nodes};
ghost use Rattle.state_codec.specs.Shapes.{shape_of};
ghost use Rattle.machines.specs.Machines.{IsState};
ghost use Rattle.plan_machine.specs.PlanMachines.{machine_of_plan};

use crate::plan_machines::PlanMachine;
use state_codec::StateShape;
use std::alloc::Global;
use sync_types::{NoMemory, NodeState};
use tower::Tower;

/// A node of a plan: an engine of the plan's machine.
pub type NodeEngine = node_stepper::NodeEngine<PlanMachine>;

/// What is a node of a plan, and made of the plan's counter and the shape of its states.
pub trait PlanNode: Drop {
    // That it is this node of a plan, in this state, and has heard no other node.
    ghost is_begun: { Plan → (id : ℕ) → State → Self → Type 0 };

    /// Node `id` of a plan in a state of its own, which has heard no other node. It takes all the
    /// memory that it ever needs; the only error is want of memory.
    ///
    /// The counter and the shape are of one plan, the id is below its number of nodes, and the
    /// state is one of that node.
    fn new(
        alloc: Global,
        tower: Tower,
        shape: StateShape,
        id: u32,
        state: NodeState,
    ) -> Result<Self, NoMemory>
        requires shape { shape ≡ shape_of tower }
        requires id { id < plan_nodes tower }
        requires state { IsState (machine_of_plan tower) id state }
        ensures { IfOk result (is_begun tower id state) };
}

impl PlanNode for NodeEngine {
    ghost use Rattle.node_stepper.specs.Nodes.{begun};

    ghost is_begun = { λ plan id state e. e ≡ begun machine_of_plan plan id state };

    fn new(
        alloc: Global,
        tower: Tower,
        shape: StateShape,
        id: u32,
        state: NodeState,
    ) -> Result<NodeEngine, NoMemory> {
        NodeEngine::of_machine(alloc, PlanMachine::of(tower, shape), id, state)
    }
}
