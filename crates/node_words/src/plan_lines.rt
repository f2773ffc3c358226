ghost use Rattle.std.specs.Prelude.{◌≡◌, IfOk};

use edge_io::LineReader;
use plan_numbers::Plan;
use plan_reader::PlanLines;
use state_codec::StateShape;
use std::alloc::Global;
use sync_types::NoMemory;

/// Reads the lines of a part that states a plan, whose nodes have states of some shape.
pub trait PlanReader: LineReader {
    ghost use Rattle.state_codec.specs.Shapes.{Shape};

    // The shape of the states of a plan.
    ghost shape: { Self.Value → Shape };

    /// The shape of the states of a plan. The only error is want of memory.
    fn shape_of(alloc: Global, plan: &Self::Value) -> Result<StateShape, NoMemory>
        ensures { IfOk result (λ s. s ≡ shape plan.now) };
}

impl PlanReader for PlanLines {
    ghost use Rattle.state_codec.specs.Shapes.{shape_of};

    ghost shape = { shape_of };

    fn shape_of(alloc: Global, plan: &Plan) -> Result<StateShape, NoMemory> {
        StateShape::of(alloc, plan)
    }
}
