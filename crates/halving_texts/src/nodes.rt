use crate::node_refusals::put_refusal;
use crate::{HalvingHeader, HalvingRefusal, LinePremise, read_halving_header};
use edge_io::{Feed, LineBuf, Sink, Source, WriteFault};
use halving_plan::{HalvingMachine, HalvingPlan};
use node_words::{Construction, HeaderError, HeaderRead};
use state_codec::StateShape;
use std::alloc::Global;
use sync_types::NoMemory;

/// The nodes of halving plans.
pub struct HalvingNodes;

impl Construction for HalvingNodes {
    type Reader = HalvingHeader;

    type Plan = HalvingPlan;

    type Premise = LinePremise;

    type Counter = HalvingMachine;

    ghost use Rattle.halving_texts.specs.HalvingWords.{halving_words};

    ghost words = { halving_words };

    fn read_header<S: Source>(
        alloc: Global,
        feed: &mut Feed<'_, S>,
        line: &mut LineBuf,
    ) -> Result<HeaderRead<HalvingPlan>, HeaderError<LinePremise>> {
        read_halving_header(alloc, feed, line)
    }

    fn counter(
        alloc: Global,
        plan: HalvingPlan,
        _shape: StateShape,
    ) -> Result<HalvingMachine, NoMemory> {
        plan.facts();
        HalvingMachine::new(alloc, plan)
    }

    fn put_refusal<K: Sink>(
        sink: &mut K,
        line: u64,
        premise: LinePremise,
    ) -> Result<(), WriteFault> {
        put_refusal(sink, HalvingRefusal { line, premise })
    }
}
