//! The calls of a node for programs that are not written in Rattle.
//!
//! Each function is given the text of a plan of either construction, keeps nothing between calls,
//! and gives an [`Answer`]. Any bytes and numbers may be given. docs/LIBRARY.md has the codes, how
//! to link, and what a caller owes.
#![tactic(auto)]

ghost use Rattle.std.specs.Prelude.{◌≡◌, ◌≤◌};
ghost use Rattle.node_calls.specs.Answers.{bytes_answer, output_answer, step_answer};
ghost use Rattle.node_calls.specs.Counters.{counter_answer, TextsHaveCounters};
ghost use Rattle.node_calls.specs.Counting.{NodesCount, LossyNodesCount};
ghost use Rattle.node_calls.specs.Lossy.{AnyLossesAreTold};
ghost use Rattle.node_calls.specs.Members.{AnyMembersConnect, AnyMembersAreHeard};
ghost use Rattle.node_calls.specs.MixedNodes.{MixedNodesCount, MixedNodesStayLocked};
ghost use Rattle.node_stepper.specs.Missed.{OthersAreMissed};
ghost use Rattle.counterlab_c.specs.Codes.{numbers_of};
ghost use Rattle.counterlab_c.specs.Exports.{Gives, GivesNumber};

mod answers;

use answers::{answer_of, numbers_of};
pub use answers::{Answer, PlanNumbers};
use machines::Machine;
use node_calls::laws::{
    any_losses_are_told, any_members_are_heard, any_members_connect, lossy_nodes_count,
    mixed_nodes_count, mixed_nodes_stay_locked, nodes_count, texts_have_counters,
};
use node_calls::{counter_in, output, state_bytes, step};
use node_stepper::run_laws::others_are_missed;
use std::alloc::Global;

/// Reads a plan, and puts its numbers into `numbers`; the value is 0. An error leaves `numbers` as
/// it was.
#[unsafe(no_mangle)]
pub extern "C" fn counterlab_plan(alloc: Global, plan: &[u8], numbers: &mut PlanNumbers) -> Answer
    ensures gives { Gives (λ _. 0) numbers_of (counter_answer plan.now)
        numbers.old numbers.new result }
    ensures nodes { result.code ≡ 0 → (1 ≤ numbers.new.nodes) × (numbers.new.nodes ≤ 256) }

    // Each text of an accepted plan, of either construction, has the counter of that plan; and the
    // machine of each counter of a text is sound.
    ensures counters { TextsHaveCounters }
{
    texts_have_counters();
    match counter_in(alloc, plan) {
        Ok(read) => {
            read.facts();
            *numbers = numbers_of(&read);
            answer_of(Ok(0))
        }
        Err(error) => answer_of(Err(error)),
    }
}

/// The value is how many bytes a state of node `id` has, at most 128.
#[unsafe(no_mangle)]
pub extern "C" fn counterlab_state_bytes(alloc: Global, plan: &[u8], id: u32) -> Answer
    ensures gives { GivesNumber (bytes_answer plan.now id) result }
    ensures most { result.code ≡ 0 → result.value ≤ 128 }
{
    match state_bytes(alloc, plan, id) {
        Ok(bytes) => answer_of(Ok(bytes as u64)),
        Err(error) => answer_of(Err(error)),
    }
}

/// The value is what node `id` shows in a state.
#[unsafe(no_mangle)]
pub extern "C" fn counterlab_output(alloc: Global, plan: &[u8], id: u32, state: &[u8]) -> Answer
    ensures { GivesNumber (output_answer plan.now id state.now) result }
{
    answer_of(output(alloc, plan, id, state))
}

/// Steps node `id` after each packet, from its state and into it; the value is how many packets
/// these were. An error leaves the state as it was.
#[unsafe(no_mangle)]
pub extern "C" fn counterlab_step(
    alloc: Global,
    plan: &[u8],
    id: u32,
    state: &mut [u8],
    packets: &[u8],
) -> Answer
    ensures gives { Gives (λ behind. behind.0) (λ behind. behind.1)
        (step_answer plan.now id state.old packets.now) state.old state.new result }

    // Nodes that step in rounds as this call answers count from the plan's bound on, whatever bytes
    // they begin with, and whatever the faulty ones say. There they are locked, and from any locked
    // round on they stay so and count.
    ensures count { NodesCount }

    // From there on they do so even if states are lost, as long as each is given in each round
    // those of N - F correct nodes, its own among them, whichever these are.
    ensures losses { LossyNodesCount }

    // Those that it hears may be any N - F correct nodes, itself among them: it may miss all
    // others.
    ensures missed { OthersAreMissed }

    // There are such rounds, whatever is lost.
    ensures lossy { AnyLossesAreTold }

    // Nodes of which some step by this call, and others are processes over packets, count as one
    // network, and go on even if states are lost.
    ensures mixed { MixedNodesCount }
    ensures mixed_losses { MixedNodesStayLocked }

    // There are such networks, whichever nodes step by this call; also whatever is lost.
    ensures members { AnyMembersConnect }
    ensures members_heard { AnyMembersAreHeard }
{
    nodes_count();
    lossy_nodes_count();
    others_are_missed();
    any_losses_are_told();
    mixed_nodes_count();
    mixed_nodes_stay_locked();
    any_members_connect();
    any_members_are_heard();
    answer_of(step(alloc, plan, id, state, packets))
}
