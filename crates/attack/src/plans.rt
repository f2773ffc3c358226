//! Plans of either construction.

ghost use Rattle.std.specs.Prelude.{◌≡◌, IfOk};
ghost use Rattle.texts.specs.Growth.{Puts};
ghost use Rattle.machine_runner.specs.Laws.{IsShapeOf};
ghost use Rattle.attack.specs.Targets.{IsFirstLine};
ghost use Rattle.attack.specs.PlanTexts.{counter_of, machine_in, shape_in, text_of, first_line_of};

use crate::shapes::{boosting_shape, halving_shape};
use edge_io::{Sink, WriteFault};
use halving_plan::{HalvingMachine, HalvingPlan};
use halving_texts::write_halving;
use node_calls::AnyMachine;
use plan_machine::PlanMachine;
use plan_numbers::Plan;
use plan_reader::write_plan;
use state_codec::StateShape;
use std::alloc::Global;
use sync_types::NoMemory;

/// A plan of either construction.
#[derive(Debug, Drop)]
pub enum AnyPlan {
    /// One of levels over blocks.
    Boosting(Plan),
    /// One of halves.
    Halving(HalvingPlan),
}

/// How many lines the text of a plan has beside those of its levels.
const LINES: u64 = 3;

impl AnyPlan {
    /// The machine of the plan. The only error is want of memory.
    pub fn machine(&self, alloc: Global) -> Result<AnyMachine, NoMemory>
        ensures { IfOk result (λ machine. machine ≡ counter_of self.now) }
    {
        match self {
            AnyPlan::Boosting(plan) => Ok(AnyMachine::Boosting(PlanMachine::new(alloc, plan)?)),
            AnyPlan::Halving(plan) => Ok(AnyMachine::Halving(HalvingMachine::new(alloc, *plan)?)),
        }
    }

    /// The shape of its states. The only error is want of memory.
    pub fn shape(&self, alloc: Global) -> Result<StateShape, NoMemory>
        ensures value { IfOk result (λ shape. shape ≡ shape_in self.now) }
        ensures fits { IfOk result (λ shape. IsShapeOf (machine_in self.now) shape) }
    {
        match self {
            AnyPlan::Boosting(plan) => boosting_shape(alloc, plan),
            AnyPlan::Halving(plan) => halving_shape(alloc, plan),
        }
    }

    /// The number of the line that follows the plan's text, at most 9.
    pub fn first_line(&self) -> u64
        ensures value { result ≡ first_line_of self.now }
        ensures line { IsFirstLine result }
    {
        match self {
            AnyPlan::Boosting(plan) => {
                plan.facts();
                1 + (plan.depth() as u64 + LINES)
            }
            AnyPlan::Halving(_) => 1 + LINES,
        }
    }

    /// Writes the plan's text, in its own version.
    ///
    /// `WriteFault` comes only if the sink counted a fault; a prefix of the text was then taken.
    pub fn write<K: Sink>(&self, sink: &mut K) -> Result<(), WriteFault>
        ensures { Puts result (text_of self.now) (K.told sink.old) (K.told sink.new) }
    {
        match self {
            AnyPlan::Boosting(plan) => write_plan(plan, plan.version(), sink),
            AnyPlan::Halving(plan) => write_halving(plan, sink),
        }
    }
}
