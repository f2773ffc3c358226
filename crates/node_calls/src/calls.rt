ghost use Rattle.std.specs.Prelude.{◌≡◌, ◌<◌, ◌≤◌, IfOk};
ghost use Rattle.state_codec.specs.Reading.{read};
ghost use Rattle.node_calls.specs.Machines.{machine_of};
ghost use Rattle.node_calls.specs.Errors.{Answers};
ghost use Rattle.node_calls.specs.Counters.{plan_answer, plan_counter, is_first, counter_answer};
ghost use Rattle.node_calls.specs.Answers.{node_answer, bytes_answer, output_answer};

use crate::{AnyMachine, CallError};
use halving_plan::HalvingMachine;
use halving_texts::{HalvingError, read_whole_halving};
use machines::Machine;
use plan_machine::PlanMachine;
use plan_numbers::Plan;
use plan_reader::{first_unskipped, read_whole_plan};
use std::alloc::Global;
use sync_types::{NoMemory, NodeState};

/// The plan of a text, after which only skipped lines stand.
///
/// `Refused` is the text's first line that fails, with its first premise.
fn plan_in(alloc: Global, text: &[u8]) -> Result<Plan, CallError>
    ensures { Answers result (plan_answer text.now) }
{
    Ok(read_whole_plan(alloc, text)?)
}

/// The counter of the plan of a text.
fn plan_counter(alloc: Global, text: &[u8]) -> Result<AnyMachine, CallError>
    ensures { Answers result (plan_counter text.now) }
{
    let plan = plan_in(alloc, text)?;
    Ok(AnyMachine::Boosting(PlanMachine::new(alloc, &plan)?))
}

/// Whether the line is the first one that counts, or no line does.
fn is_first(first: Option<u64>, line: u64) -> bool
    ensures { result ≡ is_first first line }
{
    match first {
        Some(first) => first == line,
        None => true,
    }
}

/// The counter of a text, which is that of a halving plan, or of a plan of levels over blocks, after
/// which only skipped lines stand.
///
/// `HalvingRefused` is the first line that fails of a text whose first line that counts is that of a
/// halving plan, and `Refused` that of any other text, each with its first premise.
pub fn counter_in(alloc: Global, text: &[u8]) -> Result<AnyMachine, CallError>
    ensures { Answers result (counter_answer text.now) }
{
    match read_whole_halving(text) {
        Ok(plan) => Ok(AnyMachine::Halving(HalvingMachine::new(alloc, plan)?)),
        Err(HalvingError::NoMemory) => Err(CallError::NoMemory),
        Err(HalvingError::Refused(refusal)) => {
            if is_first(first_unskipped(text, 1), refusal.line) {
                plan_counter(alloc, text)
            } else {
                Err(CallError::HalvingRefused(refusal))
            }
        }
    }
}

/// The counter of a text, which has a node `id`.
pub(crate) fn counter_with_node(
    alloc: Global,
    text: &[u8],
    id: u32,
) -> Result<AnyMachine, CallError>
    ensures exact { Answers result (node_answer text.now id) }
    ensures node { IfOk result (λ counter. id < (machine_of counter).nodes) }
{
    let counter = counter_in(alloc, text)?;
    if id >= counter.nodes() {
        return Err(CallError::Node);
    }
    Ok(counter)
}

/// How many bytes a state of node `id` has, at most 128.
///
/// `HalvingRefused` and `Refused` come as in [`counter_in`], then `Node`.
pub fn state_bytes(alloc: Global, text: &[u8], id: u32) -> Result<usize, CallError>
    ensures exact { Answers result (bytes_answer text.now id) }
    ensures most { IfOk result (λ bytes. bytes ≤ 128) }
{
    let machine = counter_with_node(alloc, text, id)?;
    Ok(machine.bytes_of(id))
}

/// What node `id` shows in the state that bytes stand for.
fn shown_by<M: Machine>(alloc: Global, machine: &M, id: u32, state: &[u8]) -> Result<u64, NoMemory>
    requires { id < (M.machine machine.now).nodes }
    ensures { IfOk result (λ output. output
        ≡ (M.machine machine.now).shows id (read ((M.machine machine.now).fields id) state.now)) }
{
    machine.facts();
    let mut own = NodeState::zero(alloc, machine.depth())?;
    machine.read_state(id, state, &mut own);
    Ok(machine.output(id, &own))
}

/// What node `id` shows in a state, which has just so many bytes as its states have.
///
/// `HalvingRefused` and `Refused` come as in [`counter_in`], then `Node`, then `Length`.
pub fn output(alloc: Global, text: &[u8], id: u32, state: &[u8]) -> Result<u64, CallError>
    ensures { Answers result (output_answer text.now id state.now) }
{
    let machine = counter_with_node(alloc, text, id)?;
    if state.len() != machine.bytes_of(id) {
        return Err(CallError::Length);
    }
    Ok(shown_by(alloc, &machine, id, state)?)
}
