use edge_io::{Feed, LineBuf, Sink, Source, WriteFault};
use node_words::{Construction, HeaderError, HeaderRead, read_header};
use outcomes::{Refusal, put_refusal};
use plan_machine::PlanMachine;
use plan_numbers::Plan;
use plan_reader::PlanLines;
use state_codec::StateShape;
use std::alloc::Global;
use sync_types::{NoMemory, Premise};

/// The nodes of plans of levels over blocks.
pub struct PlanNodes;

impl Construction for PlanNodes {
    type Reader = PlanLines;

    type Plan = Plan;

    type Premise = Premise;

    type Counter = PlanMachine;

    ghost use Rattle.outcomes.specs.PlanWords.{plan_words};

    ghost words = { plan_words };

    fn read_header<S: Source>(
        alloc: Global,
        feed: &mut Feed<'_, S>,
        line: &mut LineBuf,
    ) -> Result<HeaderRead<Plan>, HeaderError<Premise>> {
        read_header(alloc, feed, line)
    }

    fn counter(alloc: Global, plan: Plan, shape: StateShape) -> Result<PlanMachine, NoMemory> {
        PlanMachine::with_shape(alloc, &plan, shape)
    }

    fn put_refusal<K: Sink>(sink: &mut K, line: u64, premise: Premise) -> Result<(), WriteFault> {
        put_refusal(sink, Refusal::Plan { line, premise })
    }
}
